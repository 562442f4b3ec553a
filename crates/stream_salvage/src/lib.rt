// What the stream (K4) and the salvage (K10) share: laws and promises stand in specs/. There is no code here.
#![tactic(auto)]
