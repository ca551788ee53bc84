// The words and the probe rules of a call.
ghost use Rattle.std.specs.Prelude.{◌≡◌, None};

use probes::{Rule, What};
use std::alloc::{AllocError, Global};

/// The words of a command line, split at spaces; an empty line has none. No clause says which.
pub fn words_of(alloc: Global, line: &str) -> Result<Vec<String>, AllocError> {
    let mut words = Vec::new(alloc);
    if line.is_empty() {
        return Ok(words);
    }
    for word in line.split(' ') {
        words.push(String::from_str(alloc, word)?)?;
    }
    Ok(words)
}

/// The rule of a probe that counts `what` over all tasks and leaves at `limit`, if there is one.
pub fn of_all_tasks(what: What, limit: Option<u64>) -> Rule
    ensures { result ≡ record { what = what; task = None; limit = limit } }
{
    Rule {
        what,
        task: None,
        limit,
    }
}
