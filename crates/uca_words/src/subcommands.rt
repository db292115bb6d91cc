//! The subcommands of `uca` as a table: their names, their arguments, and the help on them.

/// An argument of a subcommand.
#[derive(Clone, Copy)]
pub(crate) enum Argument<'a> {
    /// One that has to be there: its id, the name of its value, and its help.
    Word {
        id: &'a str,
        name: &'a str,
        help: &'a str,
    },
    /// An option with a value: its id, which is its name too, the name of its value, and its help.
    Value {
        id: &'a str,
        name: &'a str,
        help: &'a str,
    },
    /// An option without a value: its id, which is its name too, and its help.
    Flag {
        id: &'a str,
        help: &'a str,
    },
}

/// A subcommand.
#[derive(Clone, Copy)]
pub(crate) struct Subcommand<'a> {
    /// Its name.
    pub(crate) name: &'a str,
    /// What it does, in one line.
    pub(crate) line: &'a str,
    /// What it does, in full.
    pub(crate) text: &'a str,
    /// Its usage, where that says more than its arguments do: that it reads lines, or which page is on languages.
    pub(crate) usage: Option<&'a str>,
    /// How it is called.
    pub(crate) example: &'a str,
    /// Its arguments, in their order.
    pub(crate) arguments: &'a [Argument<'a>],
}

const WEIGHTING: Argument<'static> = Argument::Value {
    id: "weighting",
    name: "W",
    help: "non-ignorable or shifted [default: what the table's @variable says, else shifted]",
};

const MADE_WEIGHTING: Argument<'static> = Argument::Value {
    id: "weighting",
    name: "W",
    help: "non-ignorable or shifted, as the keys were made [default: shifted]",
};

const IDENTICAL: Argument<'static> = Argument::Flag {
    id: "identical",
    help: "Compare texts that weigh the same by their code points too",
};

const MADE_IDENTICAL: Argument<'static> = Argument::Flag {
    id: "identical",
    help: "The keys were made with --identical",
};

const NUMERIC: Argument<'static> = Argument::Flag {
    id: "numeric",
    help: "Compare numbers of the digits 0 to 9 by their values: `9` comes before `10`",
};

const MADE_NUMERIC: Argument<'static> = Argument::Flag {
    id: "numeric",
    help: "The lines are keyed or sorted with --numeric",
};

const LINES: Argument<'static> = Argument::Flag {
    id: "lines",
    help: "Print the key without blanks, a tab and the line",
};

const HEADER: Argument<'static> = Argument::Flag {
    id: "header",
    help: "Print a first line that says what made the keys",
};

const COMPACT: Argument<'static> = Argument::Value {
    id: "compact",
    name: "BOOK",
    help: "Print compact keys, made by this book",
};

const FROM: Argument<'static> = Argument::Value {
    id: "from",
    name: "FINGERPRINT",
    help: "The input has a header with this fingerprint",
};

const TO: Argument<'static> = Argument::Value {
    id: "to",
    name: "FINGERPRINT",
    help: "Print a header with this fingerprint, that of the new table and data file",
};

const TO_KEYS: Argument<'static> = Argument::Value {
    id: "to",
    name: "FINGERPRINT",
    help: "Print a header of keys with this fingerprint",
};

const OF_COMPACT: Argument<'static> = Argument::Value {
    id: "compact",
    name: "BOOK",
    help: "Print the fingerprint of compact keys that are made by this book",
};

const CHANGED: Argument<'static> = Argument::Flag {
    id: "changes",
    help: "RULES is a file of changes, and DATA the new data file",
};

const TABLE: Argument<'static> = Argument::Word {
    id: "table",
    name: "TABLE",
    help: "A weight table in the format of allkeys.txt; that of a language: docs/LANGUAGES.md",
};

const DATA: Argument<'static> = Argument::Word {
    id: "data",
    name: "DATA",
    help: "A data file: combining classes and Han ranges",
};

const RULES: Argument<'static> = Argument::Word {
    id: "rules",
    name: "RULES",
    help: "The file of tailoring rules",
};

const LEFT: Argument<'static> = Argument::Word {
    id: "left",
    name: "LEFT",
    help: "The text on the left",
};

const RIGHT: Argument<'static> = Argument::Word {
    id: "right",
    name: "RIGHT",
    help: "The text on the right",
};

const BASE: Argument<'static> = Argument::Word {
    id: "base",
    name: "BASE",
    help: "The weight table before the tailoring",
};

const TAILORED: Argument<'static> = Argument::Word {
    id: "tailored",
    name: "TAILORED",
    help: "The weight table after the tailoring",
};

const OLD: Argument<'static> = Argument::Word {
    id: "old",
    name: "OLD",
    help: "The weight table before the change",
};

const OLD_DATA: Argument<'static> = Argument::Word {
    id: "old-data",
    name: "OLD-DATA",
    help: "The data file of OLD",
};

const NEW: Argument<'static> = Argument::Word {
    id: "new",
    name: "NEW",
    help: "The weight table after the change",
};

const NEW_DATA: Argument<'static> = Argument::Word {
    id: "new-data",
    name: "NEW-DATA",
    help: "The data file of NEW",
};

const CHANGES: Argument<'static> = Argument::Word {
    id: "changes",
    name: "CHANGES",
    help: "The changes, as `uca changes` prints them",
};

const NEW_CERTIFICATE: Argument<'static> = Argument::Word {
    id: "certificate",
    name: "CERTIFICATE",
    help: "The file that the certificate is written to",
};

const CERTIFICATE: Argument<'static> = Argument::Word {
    id: "certificate",
    name: "CERTIFICATE",
    help: "The certificate of the tailoring",
};

const CHANGE_CERTIFICATE: Argument<'static> = Argument::Word {
    id: "certificate",
    name: "CERTIFICATE",
    help: "The certificate of the changes",
};

const ANY_CERTIFICATE: Argument<'static> = Argument::Word {
    id: "certificate",
    name: "CERTIFICATE",
    help: "The certificate of the changes, or of a tailoring",
};

const BOOK: Argument<'static> = Argument::Word {
    id: "book",
    name: "BOOK",
    help: "A book: the weights at which cells begin",
};

const CHECK_COMMAND: Subcommand<'static> = Subcommand {
    name: "check",
    line: "Say whether a weight table is well-formed",
    text: "Says whether a weight table is well-formed (UTS #10, section 9.2). Prints `well-formed`, or the\n\
           first condition that fails and the first row that fails it, such as `WF5 row 8`, with status 1.",
    usage: None,
    example: "Example: uca check allkeys.txt data.txt",
    arguments: &[TABLE, DATA],
};

const KEYS_COMMAND: Subcommand<'static> = Subcommand {
    name: "keys",
    line: "Print the sort key of each line of standard input",
    text: "Prints the sort key (UTS #10, S3) of each line of standard input on a line of its own, in groups\n\
           of four hexadecimal digits. `0000` is between two levels. With `--identical` the code points\n\
           of Normalization Form D follow as one more level, six digits each. With `--numeric` a number counts by\n\
           its value. With `--lines` each key has no blanks, and after it come a tab and the line: a database or\n\
           `sort` can read that. With `--header` a first line has the weighting, the depth and the fingerprint.\n\
           `rekey` tests it, and `sort` in the locale C leaves it first. With `--compact` it prints the compact\n\
           key of each line, without blanks, as `uca compact BOOK` makes it of the key. The header then names the\n\
           book too.",
    usage: Some(
        "uca keys [OPTIONS] <TABLE> <DATA> < LINES\n\
        \x20      For <TABLE> <DATA> of Polish, write $(uca-files pl)",
    ),
    example: "Examples:\n\
         \x20 uca keys allkeys.txt data.txt < lines.txt\n\
         \x20 uca keys --lines --header allkeys.txt data.txt < lines.txt > keyed.tsv\n\
         \x20 uca keys --compact general.book --lines allkeys.txt data.txt < lines.txt > compact.tsv",
    arguments: &[
        WEIGHTING, IDENTICAL, NUMERIC, TABLE, DATA, LINES, HEADER, COMPACT,
    ],
};

const SORT_COMMAND: Subcommand<'static> = Subcommand {
    name: "sort",
    line: "Sort the lines of standard input by their sort keys",
    text: "Sorts the lines of standard input by their sort keys. Lines of equal keys keep their order.\n\
           With `--identical` lines of equal weight are in the order of their code points. Then only lines that\n\
           are canonically equivalent keep the order of the input. With `--numeric` numbers are in the order of\n\
           their values: `file 9` comes before `file 10`.",
    usage: Some(
        "uca sort [OPTIONS] <TABLE> <DATA> < LINES\n\
        \x20      For <TABLE> <DATA> of Polish, write $(uca-files pl)",
    ),
    example: "Examples:\n\
         \x20 uca sort --weighting non-ignorable allkeys.txt data.txt < lines.txt\n\
         \x20 uca sort --numeric allkeys.txt data.txt < volumes.txt",
    arguments: &[WEIGHTING, IDENTICAL, NUMERIC, TABLE, DATA],
};

const COMPARE_COMMAND: Subcommand<'static> = Subcommand {
    name: "compare",
    line: "Say how two texts compare, and at which level they differ",
    text: "Prints `<`, `=` or `>`: LEFT comes before RIGHT, is equal to it, or comes after it. Then comes the\n\
           level at which the two first differ, or 0: `< 2`. With `--identical` texts that weigh the same are\n\
           compared at one more level, by the code points of Normalization Form D. With `--numeric` numbers\n\
           compare by their values.",
    usage: Some(
        "uca compare [OPTIONS] <TABLE> <DATA> <LEFT> <RIGHT>\n\
        \x20      For <TABLE> <DATA> of Polish, write $(uca-files pl)",
    ),
    example: "Example: uca compare allkeys.txt data.txt cote côté",
    arguments: &[WEIGHTING, IDENTICAL, NUMERIC, TABLE, DATA, LEFT, RIGHT],
};

const TAILOR_COMMAND: Subcommand<'static> = Subcommand {
    name: "tailor",
    line: "Tailor a weight table by rules",
    text: "Tailors TABLE by RULES (UTS #35 Part 5, Collation) and prints the tailored table. Before that it\n\
           writes the old and the new weights of TABLE to the file CERTIFICATE, once there is a plan. `uca audit`\n\
           checks both. A file of that name is replaced, unless it is one that `tailor` reads.",
    usage: None,
    example: "Example: uca tailor table.txt data.txt rules.txt certificate.txt > tailored.txt",
    arguments: &[TABLE, DATA, RULES, NEW_CERTIFICATE],
};

const AUDIT_COMMAND: Subcommand<'static> = Subcommand {
    name: "audit",
    line: "Say whether a tailored table is what its rules say",
    text: "Says whether TAILORED is what RULES make of BASE, with the weights moved as CERTIFICATE says. Prints\n\
           `accepted`, or the first condition that fails and where, such as `refused 9 NotPlaced relation 3`,\n\
           with status 1. If it accepts, each relation of the rules holds, and all texts in which no target of\n\
           the rules occurs compare as under BASE.",
    usage: None,
    example: "Example: uca audit table.txt data.txt rules.txt tailored.txt certificate.txt",
    arguments: &[BASE, DATA, RULES, TAILORED, CERTIFICATE],
};

const AFFECTED_COMMAND: Subcommand<'static> = Subcommand {
    name: "affected",
    line: "Print the lines of standard input that rules or changes may move",
    text: "Prints those lines of standard input in which a target of RULES occurs, as they are. Other characters\n\
           may be between those of the target: `bh` occurs in `bach`. These lines may move when a table is\n\
           tailored by RULES. All other lines keep their order among themselves. With `--changes` RULES is a file\n\
           of changes, as `uca changes` prints it, and DATA is the new data file. Then it prints the lines in\n\
           which a changed text occurs so, and those with a code point of a changed range. Give `--numeric` where\n\
           the lines are keyed with it: then digits count as they are keyed, with their number before them.",
    usage: Some("uca affected [OPTIONS] <DATA> <RULES> < LINES"),
    example: "Examples:\n\
         \x20 uca affected data.txt rules.txt < lines.txt > moved.txt\n\
         \x20 uca affected --changes new-data.txt changes.txt < lines.txt > changed.txt",
    arguments: &[CHANGED, MADE_NUMERIC, DATA, RULES],
};

const CHANGES_COMMAND: Subcommand<'static> = Subcommand {
    name: "changes",
    line: "Find what changes from an old weight table to a new one",
    text: "Finds which texts and code points change from the table OLD to the table NEW, each with its data file.\n\
           First it writes the old and the new weights of OLD to the file CERTIFICATE. A file of that name is\n\
           replaced, unless it is one that `changes` reads. Then it prints the changes. `uca audit-changes` checks\n\
           both. All texts in which none of the changes occurs keep their order among themselves, and `uca rekey`\n\
           mends their stored keys.",
    usage: None,
    example: "Example: uca changes old.txt old-data.txt new.txt new-data.txt certificate.txt > changes.txt",
    arguments: &[OLD, OLD_DATA, NEW, NEW_DATA, NEW_CERTIFICATE],
};

const AUDIT_CHANGES_COMMAND: Subcommand<'static> = Subcommand {
    name: "audit-changes",
    line: "Say whether changes and their certificate are right",
    text: "Says whether CHANGES has all that changes from the table OLD to the table NEW, each with its data file,\n\
           with the weights moved as CERTIFICATE says. Prints `accepted`, or the first condition that fails and\n\
           where, such as `refused 5 RowChanged old row 3`, with status 1. If it accepts, all texts in which none\n\
           of the changes occurs compare as under OLD, and `uca rekey` mends their stored keys.",
    usage: None,
    example: "Example: uca audit-changes old.txt old-data.txt new.txt new-data.txt changes.txt certificate.txt",
    arguments: &[OLD, OLD_DATA, NEW, NEW_DATA, CHANGES, CHANGE_CERTIFICATE],
};

const REKEY_COMMAND: Subcommand<'static> = Subcommand {
    name: "rekey",
    line: "Mend the stored keys on standard input by a certificate",
    text: "Reads lines as `uca keys` or `uca keys --lines` prints them, and prints each with its key put through\n\
           the maps of CERTIFICATE: each old weight becomes its new one. The rest of the line stays. So a text in\n\
           which no change occurs gets its key under the new table. It does not find affected lines: `uca affected`\n\
           does. `--weighting` and `--identical` have to be those that made the keys. `--from` and `--to` belong\n\
           together: the input then begins with a header of that weighting, depth and fingerprint, and so does the\n\
           output, with the other fingerprint.",
    usage: Some("uca rekey [OPTIONS] <CERTIFICATE> < LINES"),
    example: "Example: uca rekey certificate.txt < keyed.tsv > mended.tsv",
    arguments: &[MADE_WEIGHTING, MADE_IDENTICAL, FROM, TO, ANY_CERTIFICATE],
};

const COMPACT_COMMAND: Subcommand<'static> = Subcommand {
    name: "compact",
    line: "Make the stored keys on standard input shorter by a book",
    text: "Reads lines as `uca keys` or `uca keys --lines` prints them. In place of the key of each it prints its\n\
           compact key by BOOK, without blanks. The rest of the line stays. Compact keys are in the order of the\n\
           keys, and `uca expand` makes the keys again. `--weighting` and `--identical` have to be those that made\n\
           the keys. Any book keeps the order, and a good one makes short keys. Keep it with the keys: compact keys\n\
           of two books do not mix. With `--from` the input begins with a header of keys of that weighting, depth\n\
           and fingerprint, and the output with one of compact keys. Its fingerprint is made of that one and BOOK,\n\
           as `uca fingerprint --compact BOOK` prints it.",
    usage: Some("uca compact [OPTIONS] <BOOK> < LINES"),
    example: "Example: uca compact my.book < keyed.tsv > compact.tsv",
    arguments: &[MADE_WEIGHTING, MADE_IDENTICAL, FROM, BOOK],
};

const EXPAND_COMMAND: Subcommand<'static> = Subcommand {
    name: "expand",
    line: "Make the keys of the compact keys on standard input",
    text: "Reads lines as `uca compact` prints them. In place of the compact key of each it prints the key, without\n\
           blanks. The rest of the line stays. `--weighting`, `--identical` and BOOK have to be those that made the\n\
           compact keys. With `--to` the output begins with a header of keys of that weighting, depth and\n\
           fingerprint, and the input with that of their compact keys by BOOK.",
    usage: Some("uca expand [OPTIONS] <BOOK> < LINES"),
    example: "Example: uca expand my.book < compact.tsv > keyed.tsv",
    arguments: &[MADE_WEIGHTING, MADE_IDENTICAL, TO_KEYS, BOOK],
};

const BOOK_COMMAND: Subcommand<'static> = Subcommand {
    name: "book",
    line: "Print what a book becomes by a certificate",
    text: "Prints BOOK with its starts put through the map of level 1 of CERTIFICATE: each becomes its new weight.\n\
           One that has none becomes the weight after the last new one below it. Mend the keys by `uca rekey` and\n\
           this certificate, and make them compact by the new book. Then a key whose weights keep their places in\n\
           their cells has the compact key that it had.",
    usage: None,
    example: "Example: uca book new.certificate my.book > new.book",
    arguments: &[ANY_CERTIFICATE, BOOK],
};

const FINGERPRINT_COMMAND: Subcommand<'static> = Subcommand {
    name: "fingerprint",
    line: "Print the fingerprint of what keys are made by",
    text: "Prints the fingerprint of what `uca keys` makes keys by, as 64 hexadecimal digits. It is the SHA-256 of\n\
           a text that names the edition of the normalization, the weighting, the depth, whether numbers are by\n\
           value, and both files by their SHA-256. Keep it beside stored keys: two runs with one fingerprint make\n\
           the same keys. It changes with each byte of a file, also in a comment. With `--compact` it is the\n\
           fingerprint of compact keys: the SHA-256 of a text that names the fingerprint of the keys, and the book\n\
           by its SHA-256.",
    usage: None,
    example: "Examples:\n\
         \x20 uca fingerprint allkeys.txt data.txt\n\
         \x20 uca fingerprint --compact my.book allkeys.txt data.txt",
    arguments: &[WEIGHTING, IDENTICAL, NUMERIC, TABLE, DATA, OF_COMPACT],
};

/// The subcommands that read a table, and lines or texts, in the order of the help.
pub(crate) const LINE_COMMANDS: &[Subcommand<'static>] = &[
    CHECK_COMMAND,
    KEYS_COMMAND,
    SORT_COMMAND,
    COMPARE_COMMAND,
];

/// Those of tailorings, which come after them. Four short tables cost the proof less than one.
pub(crate) const RULES_COMMANDS: &[Subcommand<'static>] = &[
    TAILOR_COMMAND,
    AUDIT_COMMAND,
    AFFECTED_COMMAND,
];

/// Those of changes, which come after these.
pub(crate) const CHANGES_COMMANDS: &[Subcommand<'static>] = &[
    CHANGES_COMMAND,
    AUDIT_CHANGES_COMMAND,
    REKEY_COMMAND,
];

/// Those of stored keys, which come last.
pub(crate) const STORED_COMMANDS: &[Subcommand<'static>] = &[
    COMPACT_COMMAND,
    EXPAND_COMMAND,
    BOOK_COMMAND,
    FINGERPRINT_COMMAND,
];
