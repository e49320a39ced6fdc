// No second outcome: for each public function a statement, in specs/. No code.
#![tactic(auto)]
