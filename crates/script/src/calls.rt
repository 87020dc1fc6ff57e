// The call of a line: its name, its fields and its words.
ghost use Rattle.std.specs.Prelude.{◌≡◌, take, IfSome};
ghost use Rattle.text.specs.Counts.{IsPrefixLen};

use text::forms::Form;
use text::{forms, lines};

#[derive(Clone, Copy, Debug, PartialEq, Eq)]
pub enum Kind {
    Cfg,
    Open,
    Raw,
    SendData,
    SendRequest,
    SendError,
    New,
    Queue,
    Request,
    Data,
    Poll,
    Error,
    Nak,
    Reset,
    Deadline,
    Wants,
    Write,
    Take,
    Read,
    Payload,
    Buffer,
    State,
    Memory,
    Window,
    Next,
    Last,
    QueueLong,
    Hear,
}

// A call, the first three of its figures and bytes in their order, and how many words it has: the words themselves
// lie with the caller, and the edit words_of_the_line counts them.
#[derive(Clone, Copy)]
pub struct Call {
    pub kind: Kind,
    pub words: usize,
    pub a: u64,
    pub b: u64,
    pub c: u64,
}

const CALLS: [Form<Kind>; 28] = [
    Form {
        kind: Kind::Cfg,
        name: "cfg",
        fields: "44118418",
    },
    Form {
        kind: Kind::Open,
        name: "open",
        fields: "88",
    },
    Form {
        kind: Kind::Raw,
        name: "raw",
        fields: "xxx*",
    },
    Form {
        kind: Kind::SendData,
        name: "senddata",
        fields: "2*",
    },
    Form {
        kind: Kind::SendRequest,
        name: "sendrequest",
        fields: "22",
    },
    Form {
        kind: Kind::SendError,
        name: "senderror",
        fields: "12",
    },
    Form {
        kind: Kind::New,
        name: "new",
        fields: "888",
    },
    Form {
        kind: Kind::Queue,
        name: "queue",
        fields: "*",
    },
    Form {
        kind: Kind::Request,
        name: "request",
        fields: "22",
    },
    Form {
        kind: Kind::Data,
        name: "data",
        fields: "82*",
    },
    Form {
        kind: Kind::Poll,
        name: "poll",
        fields: "8",
    },
    Form {
        kind: Kind::Error,
        name: "error",
        fields: "12",
    },
    Form {
        kind: Kind::Nak,
        name: "nak",
        fields: "",
    },
    Form {
        kind: Kind::Reset,
        name: "reset",
        fields: "",
    },
    Form {
        kind: Kind::Deadline,
        name: "deadline",
        fields: "",
    },
    Form {
        kind: Kind::Wants,
        name: "wants",
        fields: "8",
    },
    Form {
        kind: Kind::Write,
        name: "write",
        fields: "8",
    },
    Form {
        kind: Kind::Take,
        name: "take",
        fields: "",
    },
    Form {
        kind: Kind::Read,
        name: "read",
        fields: ".",
    },
    Form {
        kind: Kind::Payload,
        name: "payload",
        fields: "",
    },
    Form {
        kind: Kind::Buffer,
        name: "buffer",
        fields: "",
    },
    Form {
        kind: Kind::State,
        name: "state",
        fields: "",
    },
    Form {
        kind: Kind::Memory,
        name: "memory",
        fields: "",
    },
    Form {
        kind: Kind::Window,
        name: "window",
        fields: "22",
    },
    Form {
        kind: Kind::Next,
        name: "next",
        fields: "",
    },
    Form {
        kind: Kind::Last,
        name: "last",
        fields: "",
    },
    Form {
        kind: Kind::QueueLong,
        name: "queuelong",
        fields: "*",
    },
    Form {
        kind: Kind::Hear,
        name: "hear",
        fields: "8.",
    },
];

// The most words that a call takes.
fn most(kind: Kind) -> usize {
    match kind {
        Kind::QueueLong => 454,
        Kind::Queue => 256,
        Kind::Data => 255,
        _ => 300,
    }
}

// Whether the words and figures are within what the call takes: X is at most 1, BUFFER 2,048.
fn fits(call: Call, x: u64) -> bool {
    call.words <= most(call.kind)
        && match call.kind {
            Kind::Cfg => x <= 1,
            Kind::Open => call.b <= 2048,
            _ => true,
        }
}

// cfg T1 G K R X D M SIZE: keeps the settings, whatever their test answers.
fn keep(figures: &[u64], settings: &mut [u32]) {
    for (i, setting) in settings.iter_mut().enumerate() {
        *setting = wide(figures.get(i).copied().unwrap_or(0));
    }
}

// Reads the call of a line, its words and its settings; none where the line is no call.
pub fn read(line: &[u8], words: &mut [u32], settings: &mut [u32]) -> Option<Call>
    ensures { IfSome result (λ c. IsPrefixLen c.words words.new) }
{
    if lines::LIMIT < line.len() {
        return None;
    }
    let mut figures = [0u64; 8];
    let named = forms::read(&CALLS, line, &mut figures, words)?;
    let call = Call {
        kind: named.kind,
        words: named.words,
        a: figures[0],
        b: figures[1],
        c: figures[2],
    };
    if !fits(call, figures[4]) {
        return None;
    }
    if call.kind == Kind::Cfg {
        keep(&figures, settings);
    }
    Some(call)
}

// How many of the first `n` words there are: they are lent to a call.
pub fn lent(memory: &[u32], n: usize) -> usize
    ensures there { IsPrefixLen result memory.now }
    ensures first { take result memory.now ≡ take n memory.now }
{
    n.min(memory.len())
}

// A figure as wide as its field; the reading has kept it within.
pub fn byte(n: u64) -> u8 {
    (n & 0xFF) as u8
}

pub fn half(n: u64) -> u16 {
    (n & 0xFFFF) as u16
}

// A size; one that has no room in its type is as good as the largest, which is refused.
pub fn wide(n: u64) -> u32 {
    u32::try_from(n).unwrap_or(u32::MAX)
}
