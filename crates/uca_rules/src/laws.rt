//! What is true of all rules.
ghost use Rattle.uca_rules.specs.Laws.{ACauseExcludesAMeaning, OneMeaning};
ghost use Rattle.uca_rules.specs.Worked.{WorkedRules};

/// Bytes mean at most one list of relations, under the classes of a data file. The function does nothing: its contract is
/// the law.
pub fn bytes_mean_at_most_one_list_of_relations()
    ensures { OneMeaning }
{}

/// Bytes with the cause of an error mean no list of relations. A failed allocation is not meant: it may come at any
/// byte. The function does nothing: its contract is the law.
pub fn bytes_with_a_fault_mean_nothing()
    ensures { ACauseExcludesAMeaning }
{}

/// What the definitions give for some rules, worked out by hand. The function does nothing: its contract is the law.
pub fn worked_rules()
    ensures { WorkedRules }
{}
