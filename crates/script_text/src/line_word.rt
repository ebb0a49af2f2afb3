// The first words of lines.
ghost use Rattle.std.specs.Prelude.{◌≡◌};
ghost use Rattle.std.specs.Str.{bytes_eq};
ghost use Rattle.script_text.specs.Commands.{command_word_of, line_word_of};

/// The first word of a command after the fleet.
#[derive(Clone, Copy, PartialEq, Eq)]
pub enum CommandWord {
    Add,
    Expire,
    Keep,
    Query,
    Tail,
    Flush,
    Drain,
    Kill,
    Start,
    Rollover,
}

/// The first word of a line.
#[derive(Clone, Copy, PartialEq, Eq)]
pub enum LineWord {
    Fleet,
    Burst,
    Lane,
    End,
    Standing,
    Tell,
    Command(CommandWord),
}

/// The kind of line that begins with a word.
pub fn line_word_of(word: &[u8]) -> Option<LineWord>
    ensures { result ≡ line_word_of word.now }
{
    if is_word(word, "fleet") {
        Some(LineWord::Fleet)
    } else if is_word(word, "burst") {
        Some(LineWord::Burst)
    } else if is_word(word, "lane") {
        Some(LineWord::Lane)
    } else if is_word(word, "end") {
        Some(LineWord::End)
    } else if is_word(word, "standing") {
        Some(LineWord::Standing)
    } else if is_word(word, "tell") {
        Some(LineWord::Tell)
    } else {
        match command_word_of(word) {
            Some(command) => Some(LineWord::Command(command)),
            None => None,
        }
    }
}

/// The command that begins with a word.
fn command_word_of(word: &[u8]) -> Option<CommandWord>
    ensures { result ≡ command_word_of word.now }
{
    if is_word(word, "add") {
        Some(CommandWord::Add)
    } else if is_word(word, "expire") {
        Some(CommandWord::Expire)
    } else if is_word(word, "keep") {
        Some(CommandWord::Keep)
    } else if is_word(word, "query") {
        Some(CommandWord::Query)
    } else if is_word(word, "tail") {
        Some(CommandWord::Tail)
    } else if is_word(word, "flush") {
        Some(CommandWord::Flush)
    } else if is_word(word, "drain") {
        Some(CommandWord::Drain)
    } else if is_word(word, "kill") {
        Some(CommandWord::Kill)
    } else if is_word(word, "start") {
        Some(CommandWord::Start)
    } else if is_word(word, "rollover") {
        Some(CommandWord::Rollover)
    } else {
        None
    }
}

/// Whether a word is this text.
pub fn is_word(word: &[u8], text: &str) -> bool
    ensures { result ≡ bytes_eq word.now text.now }
{
    word == text.as_bytes()
}
