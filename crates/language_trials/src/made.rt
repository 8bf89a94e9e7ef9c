//! Scripts and tokens that the fields of a heading make.
use py_lex::lex;
use py_token::{Token, Tokens};
use std::alloc::Global;

/// The fields one behind another, each as often as its count says. In a field `\n` stands for a line feed.
pub fn repeated(alloc: Global, fields: &str) -> Option<String> {
    let mut script = String::new(alloc);
    for field in fields.split_terminator('|') {
        push_field(alloc, &mut script, field)?;
    }
    Some(script)
}

fn push_field(alloc: Global, script: &mut String, field: &str) -> Option<()> {
    let (count, text) = counted(field);
    let text = text.replace(alloc, "\\n", "\n").ok()?;
    let part = text.as_str().repeat(alloc, count).ok()?;
    script.push_str(part.as_str()).ok()
}

/// The number before the `*` of a field, and the text behind it. A field without a number counts once.
fn counted(field: &str) -> (usize, &str) {
    let Some((count, text)) = field.split_once('*') else {
        return (1, field);
    };
    match count.parse::<usize>() {
        Ok(count) => (count, text),
        Err(_) => (1, field),
    }
}

/// So many blocks one in another, each below the line of the field.
pub fn blocks(alloc: Global, field: &str) -> Option<String> {
    let (count, line) = counted(field);
    let mut script = String::new(alloc);
    for level in 0..count {
        push_line(alloc, &mut script, level, line)?;
    }
    push_line(alloc, &mut script, count, "a")?;
    Some(script)
}

fn push_line(alloc: Global, script: &mut String, level: usize, line: &str) -> Option<()> {
    let indentation = " ".repeat(alloc, level).ok()?;
    script.push_str(indentation.as_str()).ok()?;
    script.push_str(line).ok()?;
    script.push('\n').ok()
}

/// A token for each field, which has the number of a line and a word. A lexer ends each line with a token of its own; here
/// none does.
pub fn tokens_of(alloc: Global, fields: &str) -> Option<Tokens> {
    let mut tokens = Vec::new(alloc);
    for field in fields.split_terminator('|') {
        tokens.push(token_of(alloc, field)?).ok()?;
    }
    Some(Tokens::new(tokens))
}

fn token_of(alloc: Global, field: &str) -> Option<Token> {
    let (line, word) = field.split_once(' ')?;
    let line = line.parse::<u32>().ok()?;
    let tokens = lex(alloc, word.as_bytes()).ok()?;
    let first = tokens.into_vec().into_iter().next()?;
    Some(Token {
        line,
        kind: first.kind,
    })
}
