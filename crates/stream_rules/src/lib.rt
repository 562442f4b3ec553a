// Rules of a capture as it arrives, K4: definitions, laws and promises stand in specs/. There is no code here.
#![tactic(auto)]
