// Request One, a frame can't hang and no byte counts twice: definitions and laws only, no code.
#![tactic(auto)]
