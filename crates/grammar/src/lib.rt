// The grammars of an assertion's fields and of its literals, with their theorems: all of it stands in specs/.
#![tactic(auto)]
