#![tactic(auto)]

// Lists, strings of bytes and numbers by their digits: definitions and laws, in specs/.
