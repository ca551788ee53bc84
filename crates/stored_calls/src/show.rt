// What a call left, as text.
use crate::Trouble;
use crate::stage::Ending;

// The lines of a text, each after this mark. A text that doesn't end with a line feed says so in a line of its own.
fn show_text(rt: &HostRuntime, mark: char, text: &[u8]) -> Result<(), Trouble> {
    let text = std::str::from_utf8(text)?;
    if text.is_empty() {
        return Ok(());
    }
    let whole = text.strip_suffix('\n');
    for line in whole.unwrap_or(text).split('\n') {
        println!(rt; "{mark}{line}")?;
    }
    if whole.is_none() {
        println!(rt; "no line feed")?;
    }
    Ok(())
}

/// The words of a call, the lines of the answer after `|`, those of the notes after `!`, the exit status, and how many
/// loads, puts of the answer and puts of the notes failed, if some did.
pub(crate) fn show_call(rt: &HostRuntime, words: &str, ending: &Ending) -> Result<(), Trouble> {
    let blank = if words.is_empty() { "" } else { " " };
    println!(rt; "rtdvs{blank}{words}")?;
    show_text(rt, '|', ending.out.bytes())?;
    show_text(rt, '!', ending.notes.bytes())?;
    let code = ending.code;
    let (loads, puts, notes) = (
        ending.shelf.faults(),
        ending.out.faults(),
        ending.notes.faults(),
    );
    if loads == 0 && puts == 0 && notes == 0 {
        println!(rt; "status {code}")?;
    } else {
        println!(rt; "status {code}, failed: {loads} loads, {puts} puts, {notes} notes")?;
    }
    Ok(())
}
