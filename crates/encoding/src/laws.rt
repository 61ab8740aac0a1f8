// The theorems, each the contract of a function: without its proof the crate fails.
ghost use Rattle.encoding.specs.Pitfalls.{Pitfalls};
ghost use Rattle.encoding.specs.Theorem.{Encodes, Numbered, Bounded, Labels, Counted, Shifted};

// The clauses of n steps have exactly the valid plans of n steps for their models, each with its own values and no others.
pub fn encoding_stands()
    ensures { Encodes }
{}

// The variables of n steps have the numbers 1 .. N, each once.
pub fn numbering_stands()
    ensures { Numbered }
{}

// Within the limits of facts, actions and steps there are at most 1,024 relevant pairs and 70,704 variables.
pub fn limits_stand()
    ensures { Bounded }
{}

// The labelled list is the clause list, and its first false clause is well found.
pub fn labels_stand()
    ensures { Labels }
{}

// There are as many clauses of one, two and three literals as the counts say, and no others.
pub fn counts_stand()
    ensures { Counted }
{}

// The clauses of a step are those of the step before, with S added to each variable.
pub fn shift_stands()
    ensures { Shifted }
{}

// On a few tiny cells the clauses let pass what they must and stop what they must, where likely mistakes would not.
pub fn pitfalls_stand()
    ensures { Pitfalls }
{}
