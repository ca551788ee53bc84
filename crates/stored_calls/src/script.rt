// The lines of the list of calls.
//
// | Line | What it does |
// |---|---|
// | empty | is printed; a case begins, which has no files yet |
// | `# text` | the line is printed |
// | `file NAME` | begins the file T, M, F or D anew, empty so far |
// | `\|text` | adds a line to that file: the bytes of the text, with escapes, and a line feed |
// | `-text` | adds the bytes of the text without a line feed |
// | `fail load N` | in the next call the Nth load fails |
// | `fail put N K` | in the next call the Nth put of the answer fails after K bytes |
// | `fail note N K` | in the next call the Nth put of the notes fails after K bytes |
// | `probe WHAT` | the next call has one more probe, which counts `speeds` or `dones`, or the `units` of each task |
// | `probe WHAT LIMIT` | the same, and the probe leaves at this tally |
// | `call WORDS` | makes the call: its words, with escapes, are those between single blanks |
//
// So each case has its own files. A call that names one of the four which its case doesn't have is no form of the list.
use crate::Trouble;
use crate::escape::unescaped;
use crate::show::show_call;
use crate::stage::Stage;
use dvs_base::FailAt;
use probes::What;
use std::alloc::Global;

// A number in decimal digits.
fn number_of(text: &str) -> Result<u64, Trouble> {
    text.parse::<u64>().map_err(|_| Trouble::Script)
}

// Two numbers with a blank between them: a put, and the bytes that it takes.
fn fail_at(text: &str) -> Result<FailAt, Trouble> {
    let (call, taken) = text.split_once(' ').ok_or(Trouble::Script)?;
    Ok(FailAt {
        call: number_of(call)?,
        taken: number_of(taken)?,
    })
}

// What a probe counts.
fn what_of(word: &str) -> Result<What, Trouble> {
    match word {
        "speeds" => Ok(What::Speeds),
        "units" => Ok(What::Units),
        "dones" => Ok(What::Dones),
        _ => Err(Trouble::Script),
    }
}

// The words of a call; an empty line has none.
fn words_of(alloc: Global, line: &str) -> Result<Vec<String>, Trouble> {
    let mut words = Vec::new(alloc);
    if line.is_empty() {
        return Ok(words);
    }
    for piece in line.split(' ') {
        let bytes = unescaped(alloc, piece)?;
        let text = std::str::from_utf8(&bytes)?;
        let word = String::from_str(alloc, text)?;
        words.push(word)?;
    }
    Ok(words)
}

// A call with the files of its case; `Script`, with a line that says so, if the case lacks one.
fn run_call(rt: &HostRuntime, line: &str, stage: &mut Stage) -> Result<(), Trouble> {
    let words = words_of(rt.alloc(), line)?;
    for word in &words {
        if stage.lacks(word) {
            println!(rt; "rtdvs {line}: no file {word} in this case")?;
            return Err(Trouble::Script);
        }
    }
    let ending = stage.call(rt.alloc(), &words)?;
    show_call(rt, line, &ending)
}

// A line that begins with a word and a blank.
fn run_order(rt: &HostRuntime, order: &str, rest: &str, stage: &mut Stage) -> Result<(), Trouble> {
    match (order, rest.split_once(' ')) {
        ("#", _) => Ok(println!(rt; "# {rest}")?),
        ("file", _) => stage.begin(rt.alloc(), rest),
        ("fail", Some(("load", number))) => stage.fail_load(number_of(number)?),
        ("fail", Some(("put", at))) => stage.fail_put(fail_at(at)?),
        ("fail", Some(("note", at))) => stage.fail_note(fail_at(at)?),
        ("probe", Some((what, limit))) => stage.probe(what_of(what)?, Some(number_of(limit)?)),
        ("probe", None) => stage.probe(what_of(rest)?, None),
        ("call", _) => run_call(rt, rest, stage),
        _ => Err(Trouble::Script),
    }
}

/// Does what a line of the list says.
pub(crate) fn run_line(rt: &HostRuntime, line: &str, stage: &mut Stage) -> Result<(), Trouble> {
    if line.is_empty() {
        stage.begin_case();
        println!(rt; "")?;
        return Ok(());
    }
    if let Some(text) = line.strip_prefix('|') {
        stage.add(&unescaped(rt.alloc(), text)?)?;
        return stage.add(b"\n");
    }
    if let Some(text) = line.strip_prefix('-') {
        return stage.add(&unescaped(rt.alloc(), text)?);
    }
    let (order, rest) = line.split_once(' ').unwrap_or((line, ""));
    run_order(rt, order, rest, stage)
}
