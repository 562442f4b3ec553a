// One contractor's bus tells nothing of another's, K14: definitions, laws, cases and the promise stand in specs/. There is no code here.
#![tactic(auto)]
