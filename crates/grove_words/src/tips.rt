//! What wrong words are told beside clap's text.
use std::alloc::{AllocError, Global};

/// What whoever names a file without a command is told.
const FILE_TIP: &str = "\n  tip: a file comes after its command, as in 'grove judge FILE'\n";

/// What whoever serves a file without its option is told.
const TREE_TIP: &str = "\n  tip: the document comes after '--tree', as in '--tree FILE'\n";

/// What whoever asks `page` for a second port is told.
const HTTP_TIP: &str = "\n  tip: 'grove page' answers HTTP at '--port'\n";

/// Of each option that takes a number: how clap begins to say what is wrong with its value, and which numbers there
/// are.
static NUMBERS: [(&str, &str); 5] = [
    (
        "'--idle <SECONDS>': ",
        "a whole number of seconds from 1 to 86400 is needed",
    ),
    ("'--workers <N>': ", "a whole number from 1 to 16 is needed"),
    ("'--port <P>': ", "a whole number from 1 to 65535 is needed"),
    (
        "'--http <PORT>': ",
        "a port is needed, a whole number from 1 to 65535",
    ),
    (
        "'--http-seats <N>': ",
        "a whole number from 1 to 1024 is needed",
    ),
];

/// How clap advises to pass an option that there isn't as a value.
const ADVICE: &str = "  tip: to pass '";

/// What is said in its place.
const NO_OPTION: &str = "  tip: there is no such option";

/// What wrong words are told beside clap's text: where a file goes, or which option is meant.
pub fn tip_for(words: &[String], text: &str) -> &'static str {
    let word = match words.first() {
        Some(word) => word.as_str(),
        None => "",
    };
    match word {
        "serve" | "page" if lacks_tree(words, text) => TREE_TIP,
        "page" if text.starts_with("error: unexpected argument '--http") => HTTP_TIP,
        word if is_file_name(word) => FILE_TIP,
        _ => "",
    }
}

/// Whether a word that is no command is a file's name by its form.
fn is_file_name(word: &str) -> bool {
    !word.starts_with('-') && has_file_mark(word)
}

/// Whether a word has a letter that no command and no option has, and the names of most files have.
fn has_file_mark(word: &str) -> bool {
    word.contains('/') || word.contains('.')
}

/// Whether clap's text is about a word that is no option, among words that name no document.
fn lacks_tree(words: &[String], text: &str) -> bool {
    let is_stray = text.starts_with("error: unexpected argument '")
        && !text.starts_with("error: unexpected argument '-");
    is_stray && !words.iter().any(|word| word.starts_with("--tree"))
}

/// Clap's text, in which it is said what an option's number has to be, and of an option that there isn't that there is
/// no such option.
pub fn said_plainly(alloc: Global, text: &str) -> Result<String, AllocError> {
    for (option, needed) in &NUMBERS {
        if let Some((front, reason)) = text.split_once(*option) {
            let (_, rest) = reason.split_once('\n').unwrap_or((reason, ""));
            return format!(in alloc; "{front}{option}{needed}\n{rest}");
        }
    }
    without_advice(alloc, text)
}

/// Clap's text without the advice to pass an option that there isn't as a value, unless it may be the name of a file.
fn without_advice(alloc: Global, text: &str) -> Result<String, AllocError> {
    match text.split_once(ADVICE) {
        Some((front, advised)) => {
            let (advice, rest) = advised.split_once('\n').unwrap_or((advised, ""));
            if has_file_mark(advice) {
                String::from_str(alloc, text)
            } else {
                format!(in alloc; "{front}{NO_OPTION}\n{rest}")
            }
        }
        None => String::from_str(alloc, text),
    }
}
