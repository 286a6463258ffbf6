// What the call that answers an edit promises, and the laws by which `lyndon_edit` keeps it; no code.
#![tactic(auto)]
