// No code: the starred lines of document 01, proved by computation (specs/).
#![tactic(auto)]
