//! Laws of upgrades. Each function at most calls the laws that its own follows from: its contract is the law.

ghost use Rattle.uca_upgrades.specs.Laws.{AcceptedChangesKeepOrder, AuditedChangesKeepOrder, AcceptedTailoringsKeepOrder, AuditedTailoringsKeepOrder};

use uca_changes::{changes_keep_unaffected_texts, tailorings_are_changes};

/// What a new edition of a table means for stored keys. Say a database has lines, and a key of each by the table and the data
/// file of Unicode 13.0.0. Now it goes to those of Unicode 15.0.0. `uca changes` writes a file of changes and a certificate
/// for this, and `uca audit-changes` accepts them.
///
/// The keys of the lines that `uca affected --changes` prints are made anew. The keys of all others go through `uca rekey`, or
/// stay where no weight of the line moves. Then each stored key is the key of its line under Unicode 15.0.0, byte for byte:
///
/// - The byte order of two keys is the order of their lines under the new table. They give the level at which these differ.
/// - `uca rekey` reads what `uca keys` printed of such other lines under Unicode 13.0.0, with or without `--lines`. It writes
///   what `uca keys` prints of them under Unicode 15.0.0.
/// - The next edition may come: its old keys are these.
///
/// This is so for each weighting and depth, and also with `--numeric` where each run but `uca rekey` has it. It is so too where no
/// weighting is asked for: then both tables say the same one, and `uca rekey` is asked for that one. Nothing is asked of the files but that their bytes mean a change that is accepted.
pub fn accepted_changes_keep_order()
    ensures { AcceptedChangesKeepOrder }
{
    changes_keep_unaffected_texts();
}

/// What the verdict of a run means for stored keys. Say `uca audit-changes` returned `Ok(true)` over the tables and data files
/// of Unicode 13.0.0 and 15.0.0, a file of changes and a certificate. Then the bytes of these six files mean one change, and no
/// other. It is accepted, and all is true of it that [`accepted_changes_keep_order`] says.
pub fn audited_changes_keep_order()
    ensures { AuditedChangesKeepOrder }
{
    accepted_changes_keep_order();
}

/// What a tailoring means for stored keys. Say the base is the table of Unicode 15.0.0, and the rules are `&b < bh <<< Bh`.
/// `uca tailor` writes the tailored table and the certificate, and `uca audit` accepts them. The keys of lines that
/// `uca affected` prints, such as `bach`, are made anew. All others go through `uca rekey`, or stay where no weight of the line
/// moves. Then each stored key is the key of its line under the tailored table.
pub fn accepted_tailorings_keep_order()
    ensures { AcceptedTailoringsKeepOrder }
{
    changes_keep_unaffected_texts();
    tailorings_are_changes();
}

/// What the verdict of a run means for stored keys. Say `uca audit` returned `Ok(true)` over the table and the data file of
/// Unicode 15.0.0, rules, a tailored table and a certificate. Then their bytes mean one tailoring, and no other. It is
/// accepted, and all is true of it that [`accepted_tailorings_keep_order`] says.
pub fn audited_tailorings_keep_order()
    ensures { AuditedTailoringsKeepOrder }
{
    accepted_tailorings_keep_order();
}
