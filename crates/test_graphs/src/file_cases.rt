// Files that are too long for a line of the input, or no text.
use outside_io::{Bytes, List, NoMemory};
use std::alloc::Global;

/// A file: what it has, and its bytes, which are those of `front`, so often `piece` with its number in place of each
/// `#`, as often `close`, and those of `back`.
#[derive(Clone, Copy)]
pub(crate) struct MadeFile {
    pub(crate) has: &'static str,
    front: &'static [u8],
    piece: &'static str,
    times: u64,
    close: &'static [u8],
    back: &'static [u8],
}

// A file of these bytes alone.
const BYTES: MadeFile = MadeFile {
    has: "",
    front: b"",
    piece: "",
    times: 0,
    close: b"",
    back: b"",
};

const TEXT: MadeFile = MadeFile {
    front: b"{\"tasks\":[{\"name\":\"a\",\"op\":\"read\",\"text\":\"",
    piece: "x",
    back: b"\"}]}",
    ..BYTES
};

// A word of two bytes so many times.
const WORD: MadeFile = MadeFile {
    front: b"{\"tasks\":[{\"name\":\"a\",\"op\":\"keep\",\"word\":\"",
    piece: "\u{e9}",
    back: b"\"}]}",
    ..BYTES
};

const WORDS: MadeFile = MadeFile {
    front: b"{\"tasks\":[{\"name\":\"a\",\"op\":\"route\",\"words\":[\"",
    piece: "x",
    back: b"\"]}]}",
    ..BYTES
};

// An unknown field of so many arrays, one in another.
const LEVELS: MadeFile = MadeFile {
    front: b"{\"tasks\":[],\"x\":",
    piece: "[",
    close: b"]",
    back: b"}",
    ..BYTES
};

// So many tasks before a last one.
const TASKS: MadeFile = MadeFile {
    front: b"{\"tasks\":[",
    piece: "{\"name\":\"#\",\"op\":\"pass\"},",
    back: b"{\"name\":\"x\",\"op\":\"pass\"}]}",
    ..BYTES
};

// Tasks of ten edges each.
const EDGES: MadeFile = MadeFile {
    piece: "{\"name\":\"#\",\"op\":\"pass\",\"to\":[\"0\",\"1\",\"2\",\"3\",\"4\",\"5\",\"6\",\"7\",\"8\",\"9\"]},",
    back: b"{\"name\":\"x\",\"op\":\"pass\",\"to\":[\"x\",\"x\",\"x\",\"x\",\"x\",\"x\",\"x\",\"x\",\"x\",\"x\"]}]}",
    ..TASKS
};

const READS: MadeFile = MadeFile {
    piece: "{\"name\":\"#\",\"op\":\"read\",\"text\":\"#\"},",
    back: b"{\"name\":\"x\",\"op\":\"read\",\"text\":\"x\"}]}",
    ..TASKS
};

// So many semaphores before a last one.
const SEMAPHORES: MadeFile = MadeFile {
    front: b"{\"tasks\":[],\"semaphores\":[",
    piece: "{\"name\":\"#\",\"max\":1},",
    back: b"{\"name\":\"x\",\"max\":1}]}",
    ..BYTES
};

// A task that holds a semaphore so often and once more.
const HOLDS: MadeFile = MadeFile {
    front: b"{\"semaphores\":[{\"name\":\"s\",\"max\":1}],\"tasks\":[{\"name\":\"a\",\"op\":\"pass\",\"holds\":[",
    piece: "\"s\",",
    back: b"\"s\"]}]}",
    ..BYTES
};

// So many modules before a last one.
const MODULES: MadeFile = MadeFile {
    front: b"{\"tasks\":[],\"modules\":[",
    piece: "{\"name\":\"#\",\"tasks\":[]},",
    back: b"{\"name\":\"x\",\"tasks\":[]}]}",
    ..BYTES
};

// A pipeline of so many pipes before a last one.
const PIPES: MadeFile = MadeFile {
    front: b"{\"tasks\":[{\"name\":\"a\",\"op\":\"pipe\",\"lines\":64,\"pipes\":[",
    piece: "{\"serial\":true,\"op\":\"pass\"},",
    back: b"{\"serial\":true,\"op\":\"stamp\"}]}]}",
    ..BYTES
};

// A pipeline with so many rows that defer tokens before a last one.
const DEFERS: MadeFile = MadeFile {
    front: b"{\"tasks\":[{\"name\":\"a\",\"op\":\"pipe\",\"lines\":1,\"pipes\":[{\"serial\":true,\"op\":\"pass\"}],\"defer\":[",
    piece: "{\"token\":#,\"to\":[#]},",
    back: b"{\"token\":65535,\"to\":[0]}]}]}",
    ..BYTES
};

// How a file begins whose first task is a pipeline without a line.
const NO_LINES: &[u8] = b"{\"tasks\":[{\"name\":\"a\",\"op\":\"pipe\",\"lines\":0,\"pipes\":[]},";

// How a file begins that has a module with a semaphore, an edge, and a task that reads a text, beside its tasks.
const BESIDE: &[u8] =
    b"{\"modules\":[{\"name\":\"m\",\"semaphores\":[{\"name\":\"s\",\"max\":1}],\"tasks\":[{\"name\":\"a\",\"op\":\"read\",\"text\":\"m\",\"to\":[\"a\"]}]}],\"tasks\":[";

/// The files.
pub(crate) const FILES: [MadeFile; 63] = [
    MadeFile {
        has: "a byte order mark",
        front: b"\xef\xbb\xbf{\"tasks\":[]}",
        ..BYTES
    },
    MadeFile {
        has: "a byte that UTF-8 has nowhere",
        front: b"{\"tasks\":[],\"\xff\":1}",
        ..BYTES
    },
    MadeFile {
        has: "a surrogate in UTF-8",
        front: b"{\"tasks\":[],\"\xed\xa0\x80\":1}",
        ..BYTES
    },
    MadeFile {
        has: "a byte in two",
        front: b"{\"tasks\":[],\"\xc1\xa1\":1}",
        ..BYTES
    },
    MadeFile {
        has: "half a character",
        front: b"{\"tasks\":[],\"\xc3\":1}",
        ..BYTES
    },
    MadeFile {
        has: "a NUL alone",
        front: b"\0",
        ..BYTES
    },
    MadeFile {
        has: "a NUL at the end",
        front: b"{\"tasks\":[]}\0",
        ..BYTES
    },
    MadeFile {
        has: "a NUL in a key",
        front: b"{\"tasks\":[],\"\0\":1}",
        ..BYTES
    },
    MadeFile {
        has: "a text of 4,096 bytes",
        times: 4_096,
        ..TEXT
    },
    MadeFile {
        has: "a text of 4,097 bytes",
        times: 4_097,
        ..TEXT
    },
    MadeFile {
        has: "a word of 4,096 bytes",
        times: 2_048,
        ..WORD
    },
    MadeFile {
        has: "a word of 4,098 bytes",
        times: 2_049,
        ..WORD
    },
    MadeFile {
        has: "words of 4,096 bytes",
        times: 4_096,
        ..WORDS
    },
    MadeFile {
        has: "words of 4,097 bytes",
        times: 4_097,
        ..WORDS
    },
    MadeFile {
        has: "256 words",
        piece: "\",\"",
        times: 255,
        ..WORDS
    },
    MadeFile {
        has: "257 words",
        piece: "\",\"",
        times: 256,
        ..WORDS
    },
    MadeFile {
        has: "a name of 4 million bytes",
        front: b"{\"tasks\":[{\"name\":\"",
        times: 4_000_000,
        back: b"\",\"op\":\"pass\"}]}",
        ..TEXT
    },
    MadeFile {
        has: "1 level beside its tasks",
        front: b"{\"tasks\":[],\"x\":1}",
        ..BYTES
    },
    MadeFile {
        has: "127 levels",
        times: 126,
        ..LEVELS
    },
    MadeFile {
        has: "128 levels",
        times: 127,
        ..LEVELS
    },
    MadeFile {
        has: "10,000 tasks",
        times: 9_999,
        ..TASKS
    },
    MadeFile {
        has: "10,001 tasks",
        times: 10_000,
        ..TASKS
    },
    MadeFile {
        has: "10,001 tasks of one name",
        piece: "{\"name\":\"a\",\"op\":\"pass\"},",
        times: 10_000,
        ..TASKS
    },
    MadeFile {
        has: "100,000 edges",
        times: 9_999,
        ..EDGES
    },
    MadeFile {
        has: "100,001 edges",
        times: 9_999,
        back: b"{\"name\":\"x\",\"op\":\"pass\",\"to\":[\"x\",\"x\",\"x\",\"x\",\"x\",\"x\",\"x\",\"x\",\"x\",\"x\",\"x\"]}]}",
        ..EDGES
    },
    MadeFile {
        has: "10,001 tasks and 100,010 edges",
        times: 10_000,
        ..EDGES
    },
    MadeFile {
        has: "256 semaphores",
        times: 255,
        ..SEMAPHORES
    },
    MadeFile {
        has: "257 semaphores",
        times: 256,
        ..SEMAPHORES
    },
    MadeFile {
        has: "257 semaphores of one name",
        piece: "{\"name\":\"a\",\"max\":1},",
        times: 256,
        ..SEMAPHORES
    },
    MadeFile {
        has: "100,000 semaphores",
        times: 99_999,
        ..SEMAPHORES
    },
    MadeFile {
        has: "a semaphore 1,000,000 times in a list",
        times: 999_999,
        ..HOLDS
    },
    MadeFile {
        has: "1,024 texts",
        times: 1_023,
        ..READS
    },
    MadeFile {
        has: "1,025 texts",
        times: 1_024,
        ..READS
    },
    MadeFile {
        has: "64 modules",
        times: 63,
        ..MODULES
    },
    MadeFile {
        has: "65 modules",
        times: 64,
        ..MODULES
    },
    MadeFile {
        has: "65 modules of one name",
        piece: "{\"name\":\"a\",\"tasks\":[]},",
        times: 64,
        ..MODULES
    },
    MadeFile {
        has: "65 modules of which the last runs itself",
        times: 64,
        back: b"{\"name\":\"x\",\"tasks\":[{\"name\":\"a\",\"op\":\"module\",\"module\":\"x\"}]}]}",
        ..MODULES
    },
    MadeFile {
        has: "50,000 modules that run one",
        piece: "{\"name\":\"#\",\"tasks\":[{\"name\":\"a\",\"op\":\"module\",\"module\":\"x\"}]},",
        times: 50_000,
        ..MODULES
    },
    MadeFile {
        has: "50,000 modules that run themselves",
        piece: "{\"name\":\"#\",\"tasks\":[{\"name\":\"a\",\"op\":\"module\",\"module\":\"#\"}]},",
        times: 50_000,
        ..MODULES
    },
    MadeFile {
        has: "10,000 tasks in two graphs",
        front: BESIDE,
        times: 9_998,
        ..TASKS
    },
    MadeFile {
        has: "10,001 tasks in two graphs",
        front: BESIDE,
        times: 9_999,
        ..TASKS
    },
    MadeFile {
        has: "100,000 edges in two graphs",
        front: BESIDE,
        times: 9_998,
        back: b"{\"name\":\"x\",\"op\":\"pass\",\"to\":[\"x\",\"x\",\"x\",\"x\",\"x\",\"x\",\"x\",\"x\",\"x\",\"x\",\"x\",\"x\",\"x\",\"x\",\"x\",\"x\",\"x\",\"x\",\"x\"]}]}",
        ..EDGES
    },
    MadeFile {
        has: "100,001 edges in two graphs",
        front: BESIDE,
        times: 9_998,
        back: b"{\"name\":\"x\",\"op\":\"pass\",\"to\":[\"x\",\"x\",\"x\",\"x\",\"x\",\"x\",\"x\",\"x\",\"x\",\"x\",\"x\",\"x\",\"x\",\"x\",\"x\",\"x\",\"x\",\"x\",\"x\",\"x\"]}]}",
        ..EDGES
    },
    MadeFile {
        has: "257 semaphores in two graphs",
        front: b"{\"modules\":[{\"name\":\"m\",\"semaphores\":[{\"name\":\"s\",\"max\":1}],\"tasks\":[]}],\"tasks\":[],\"semaphores\":[",
        times: 255,
        ..SEMAPHORES
    },
    MadeFile {
        has: "1,024 texts in two graphs",
        front: BESIDE,
        times: 1_022,
        ..READS
    },
    MadeFile {
        has: "1,025 texts in two graphs",
        front: BESIDE,
        times: 1_023,
        ..READS
    },
    MadeFile {
        has: "32 pipes",
        times: 31,
        ..PIPES
    },
    MadeFile {
        has: "33 pipes",
        times: 32,
        ..PIPES
    },
    MadeFile {
        has: "33 pipes and 65 lines",
        front: b"{\"tasks\":[{\"name\":\"a\",\"op\":\"pipe\",\"lines\":65,\"pipes\":[",
        times: 32,
        ..PIPES
    },
    MadeFile {
        has: "33 pipes of which the first is parallel",
        piece: "{\"serial\":false,\"op\":\"pass\"},",
        times: 32,
        ..PIPES
    },
    MadeFile {
        has: "33 pipes and no line",
        front: b"{\"tasks\":[{\"name\":\"a\",\"op\":\"pipe\",\"lines\":0,\"pipes\":[",
        times: 32,
        ..PIPES
    },
    MadeFile {
        has: "100,000 pipes",
        times: 99_999,
        ..PIPES
    },
    MadeFile {
        has: "256 rows that defer tokens",
        times: 255,
        ..DEFERS
    },
    MadeFile {
        has: "257 rows that defer tokens",
        times: 256,
        ..DEFERS
    },
    MadeFile {
        has: "256 rows that defer tokens, two of one token",
        times: 255,
        back: b"{\"token\":0,\"to\":[1]}]}]}",
        ..DEFERS
    },
    MadeFile {
        has: "100,000 rows that defer one token",
        piece: "{\"token\":1,\"to\":[0]},",
        times: 99_999,
        ..DEFERS
    },
    MadeFile {
        has: "10,000 tasks, of which one is a pipeline without a line",
        front: NO_LINES,
        times: 9_998,
        ..TASKS
    },
    MadeFile {
        has: "10,001 tasks, of which one is a pipeline without a line",
        front: NO_LINES,
        times: 9_999,
        ..TASKS
    },
    MadeFile {
        has: "1,025 texts and a pipeline without a line",
        front: NO_LINES,
        times: 1_024,
        ..READS
    },
    MadeFile {
        has: "4,194,304 brackets",
        piece: "[",
        times: 4_194_304,
        ..BYTES
    },
    MadeFile {
        has: "4,194,304 bytes of objects",
        piece: "{\"a\":",
        times: 838_860,
        back: b"{\"a\"",
        ..BYTES
    },
    MadeFile {
        has: "4,194,304 quotes",
        piece: "\"",
        times: 4_194_304,
        ..BYTES
    },
    MadeFile {
        has: "4,194,304 digits",
        piece: "7",
        times: 4_194_304,
        ..BYTES
    },
];

/// The bytes of a file.
pub(crate) fn made(alloc: Global, file: &MadeFile) -> Result<Bytes, NoMemory> {
    let mut bytes = List::from_slice(alloc, file.front)?;
    for number in 0..file.times {
        add_numbered(alloc, &mut bytes, file.piece, number)?;
    }
    for _ in 0..file.times {
        bytes.add_all(file.close)?;
    }
    bytes.add_all(file.back)?;
    Ok(bytes)
}

// Adds a piece with its number in place of each `#`.
fn add_numbered(
    alloc: Global,
    bytes: &mut Bytes,
    piece: &str,
    number: u64,
) -> Result<(), NoMemory> {
    let Some((front, back)) = piece.split_once('#') else {
        return bytes.add_all(piece.as_bytes());
    };
    let number = format!(in alloc; "{number}")?;
    bytes.add_all(front.as_bytes())?;
    bytes.add_all(number.as_str().as_bytes())?;
    let back = back.replace(alloc, "#", number.as_str())?;
    bytes.add_all(back.as_str().as_bytes())
}
