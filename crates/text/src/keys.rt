// The card's key words: a constant table of byte strings with operand counts, and the search of it.
ghost use Rattle.std.specs.Prelude.{◌≡◌};
ghost use Rattle.text.specs.Keys.{Searched};

#[derive(Clone, Copy, Debug, PartialEq, Eq)]
pub(crate) enum Word {
    Vars,
    Nodes,
    Room,
    Top,
    Bind,
    Wind,
    Look,
    Set,
    Here,
    Goto,
    Back,
    Peek,
}

// A key word with its '=', how many numbers follow, and which word it is. The numbers are counted, as document 01 has them of each word:
// a count is no kind.
#[derive(Clone, Copy, Debug)]
pub(crate) struct Key {
    pub text: &'static [u8],
    pub numbers: u8,
    pub word: Word,
}

const KEYS: [Key; 12] = [
    Key {
        text: b"vars=",
        numbers: 1,
        word: Word::Vars,
    },
    Key {
        text: b"nodes=",
        numbers: 1,
        word: Word::Nodes,
    },
    Key {
        text: b"room=",
        numbers: 1,
        word: Word::Room,
    },
    Key {
        text: b"top=",
        numbers: 1,
        word: Word::Top,
    },
    Key {
        text: b"bind=",
        numbers: 2,
        word: Word::Bind,
    },
    Key {
        text: b"wind=",
        numbers: 2,
        word: Word::Wind,
    },
    Key {
        text: b"look=",
        numbers: 1,
        word: Word::Look,
    },
    Key {
        text: b"set=",
        numbers: 2,
        word: Word::Set,
    },
    Key {
        text: b"here=",
        numbers: 0,
        word: Word::Here,
    },
    Key {
        text: b"goto=",
        numbers: 1,
        word: Word::Goto,
    },
    Key {
        text: b"back=",
        numbers: 0,
        word: Word::Back,
    },
    Key {
        text: b"peek=",
        numbers: 2,
        word: Word::Peek,
    },
];

// The key word that the line begins with.
pub(crate) fn find_key(line: &[u8]) -> Option<Key>
    ensures { Searched line.now result }
{
    for key in &KEYS {
        if line.starts_with(key.text) {
            return Some(*key);
        }
    }
    None
}
