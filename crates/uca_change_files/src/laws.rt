//! What is true by the definitions alone.

ghost use Rattle.uca_change_files.specs.Laws.{BytesMeanAtMostOneChangeList};

/// The law that bytes mean at most one list of changes.
pub fn bytes_mean_at_most_one_change_list()
    ensures { BytesMeanAtMostOneChangeList }
{}
