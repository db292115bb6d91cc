//! The streams of a call. One of them may fail.

use std::alloc::Global;
use test_kit::{Calls, FakeReader, FakeWriter, Pace};
use uca_weights::{Sink, Source};

/// How many streams are read at most. They have the numbers below this, in the order in which they are read.
pub const READ: usize = 5;
/// The number of the stream that a certificate is written to.
pub const FILE: usize = 5;
/// The number of the output.
pub const OUT: usize = 6;
/// The number of no stream.
pub const NONE: usize = 7;

/// Which stream fails, and at which pace; all others have its step.
#[derive(Clone, Copy)]
pub struct Trouble {
    /// The number of the stream.
    pub stream: usize,
    /// Its pace.
    pub pace: Pace,
}

impl Trouble {
    /// No stream fails, and a call takes at most this many bytes.
    pub fn none(step: usize) -> Trouble {
        Trouble {
            stream: NONE,
            pace: Pace::steps(step),
        }
    }

    fn pace_of(self, stream: usize) -> Pace {
        if stream == self.stream {
            self.pace
        } else {
            Pace::steps(self.pace.step)
        }
    }
}

/// The calls of the streams. If a reader fails, a writer may be called after it: keys of lines before go out then.
/// Where a writer fails no stream is called after it.
#[derive(Drop)]
pub struct AllCalls {
    /// Those of the readers if one of them fails.
    pub reads: Calls,
    /// Those of the writers, and of the readers if none of them fails.
    pub writes: Calls,
}

impl AllCalls {
    /// There was none.
    pub fn new() -> AllCalls {
        AllCalls {
            reads: Calls::new(),
            writes: Calls::new(),
        }
    }

    /// Whether one of them failed.
    pub fn have_failed(&self) -> bool {
        self.reads.failed.get() > 0 || self.writes.failed.get() > 0
    }

    // The calls among which those of the readers are.
    fn of_readers(&self, trouble: Trouble) -> &Calls {
        if trouble.stream < READ {
            &self.reads
        } else {
            &self.writes
        }
    }

    /// Whether a stream was called that may not be called after one failed.
    pub fn are_late(&self) -> bool {
        self.reads.late.get() > 0 || self.writes.late.get() > 0
    }
}

/// The streams of a call, which uses some of them.
#[derive(Drop)]
pub struct Streams<'a> {
    /// The table, the base of an audit, the data file of a run without a table, or the one file of a call.
    pub table: Source<FakeReader<'a>>,
    /// The data file, or the rules of a run without a table.
    pub properties: Source<FakeReader<'a>>,
    /// The lines of an input, or rules.
    pub text: Source<FakeReader<'a>>,
    /// The tailored table of an audit.
    pub tailored: Source<FakeReader<'a>>,
    /// The certificate of an audit.
    pub certificate: Source<FakeReader<'a>>,
    /// The file that a certificate is written to.
    pub file: Sink<FakeWriter<'a>>,
    /// The output.
    pub out: Sink<FakeWriter<'a>>,
}

// The text of a stream: one after the last is empty.
fn text_at(texts: &[Vec<u8>], stream: usize) -> &[u8] {
    match texts.get(stream) {
        Some(text) => text.as_slice(),
        None => b"",
    }
}

fn reader<'a>(
    texts: &'a [Vec<u8>],
    trouble: Trouble,
    calls: &'a AllCalls,
    stream: usize,
) -> Source<FakeReader<'a>> {
    let pace = trouble.pace_of(stream);
    let calls = calls.of_readers(trouble);
    Source::new(FakeReader::new(text_at(texts, stream), pace, calls))
}

fn writer<'a>(
    ample: Global,
    trouble: Trouble,
    calls: &'a AllCalls,
    stream: usize,
) -> Sink<FakeWriter<'a>> {
    Sink::new(FakeWriter::new(ample, trouble.pace_of(stream), &calls.writes))
}

impl<'a> Streams<'a> {
    /// Streams of these texts.
    pub fn new(
        ample: Global,
        texts: &'a [Vec<u8>],
        trouble: Trouble,
        calls: &'a AllCalls,
    ) -> Streams<'a> {
        Streams {
            table: reader(texts, trouble, calls, 0),
            properties: reader(texts, trouble, calls, 1),
            text: reader(texts, trouble, calls, 2),
            tailored: reader(texts, trouble, calls, 3),
            certificate: reader(texts, trouble, calls, 4),
            file: writer(ample, trouble, calls, FILE),
            out: writer(ample, trouble, calls, OUT),
        }
    }

    /// What went out to the file of a certificate, and to the output.
    pub fn into_texts(self) -> [Vec<u8>; 2] {
        [self.file.into_inner().text, self.out.into_inner().text]
    }

    /// Which of them say that they failed.
    pub fn failed(&self) -> [bool; NONE] {
        [
            self.table.failed(),
            self.properties.failed(),
            self.text.failed(),
            self.tailored.failed(),
            self.certificate.failed(),
            self.file.failed(),
            self.out.failed(),
        ]
    }
}

/// One stream alone among all.
pub fn alone(stream: usize) -> [bool; NONE] {
    [
        stream == 0,
        stream == 1,
        stream == 2,
        stream == 3,
        stream == 4,
        stream == FILE,
        stream == OUT,
    ]
}
