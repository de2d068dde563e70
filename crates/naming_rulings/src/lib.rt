// The rulings on principals by reference, computed from the definitions: all of it stands in specs/. Apart from keynote, whose check they would double.
#![tactic(auto)]
