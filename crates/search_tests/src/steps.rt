//! What a search tells at each step.

ghost use Rattle.std.specs.Prelude.{◌≡◌, ◌<◌};

use crate::cases::{BACK, LEARNED, STEPS};
use sat_formula::{Formula, Lit};
use std::alloc::{AllocError, Global};
use std::test::Fail;
use watched_search::Search;

// Six variables beside `top`.
const VARS: u8 = 6;

// The literal of a letter.
fn literal(letter: u8) -> Lit {
    match letter {
        b'`'..=b'z' => Lit {
            var: (letter - b'`') as usize,
            neg: false,
        },
        b'@'..=b'Z' => Lit {
            var: (letter - b'@') as usize,
            neg: true,
        },
        _ => Lit { var: 0, neg: true },
    }
}

fn letter(l: Lit) -> u8 {
    let number = if l.var < 27 { l.var as u8 } else { 27 };
    if l.neg { b'@' + number } else { b'`' + number }
}

fn clause(alloc: Global, word: &[u8]) -> Result<Vec<Lit>, AllocError> {
    let mut lits = Vec::new(alloc);
    for byte in word {
        if *byte != b'-' {
            lits.push(literal(*byte))?;
        }
    }
    Ok(lits)
}

fn begun(alloc: Global, words: &str) -> Result<Search, AllocError> {
    let mut formula = Formula::new(alloc)?;
    for _ in 0..VARS {
        let _ = formula.fresh()?;
    }
    for word in words.split(" ") {
        let lits = clause(alloc, word.as_bytes())?;
        let vars = formula.vars();
        if !word.is_empty() && lits.iter().all(|l| l.var < vars) {
            formula.add(lits.as_slice())?;
        }
    }
    Search::new(alloc, &formula)
}

fn tell(out: &mut Vec<u8>, text: &str) -> Result<(), AllocError> {
    if !out.is_empty() {
        out.push(b' ')?;
    }
    out.extend_from_slice(text.as_bytes())
}

fn tell_number(alloc: Global, out: &mut Vec<u8>, n: usize) -> Result<(), AllocError> {
    let text = format!(in alloc; "{n}")?;
    tell(out, text.as_str())
}

fn tell_entries(alloc: Global, out: &mut Vec<u8>, search: &Search) -> Result<(), AllocError> {
    tell(out, "[")?;
    for (k, e) in search.entries().iter().enumerate() {
        if k > 0 {
            out.push(b' ')?;
        }
        out.push(letter(e.lit))?;
        if let Some(reason) = e.reason {
            let text = format!(in alloc; "{reason}")?;
            out.extend_from_slice(text.as_bytes())?;
        }
    }
    out.push(b']')?;
    Ok(())
}

fn tell_clause(out: &mut Vec<u8>, search: &Search, c: usize) -> Result<(), AllocError> {
    tell(out, "[")?;
    if c < search.count() {
        for k in 0..search.size(c) {
            out.push(letter(search.lit(c, k)))?;
        }
    }
    out.push(b']')?;
    Ok(())
}

fn push(out: &mut Vec<u8>, search: &mut Search, l: Lit) -> Result<(), AllocError> {
    if l.var < search.vars() {
        match search.value(l) {
            None => {
                search.push(l);
                Ok(())
            }
            Some(_) => tell(out, "set"),
        }
    } else {
        tell(out, "unknown")
    }
}

fn back(out: &mut Vec<u8>, search: &mut Search, keep: usize) -> Result<(), AllocError> {
    if keep <= search.entries().len() {
        search.back(keep);
        Ok(())
    } else {
        tell(out, "fewer")
    }
}

fn learn(
    alloc: Global,
    out: &mut Vec<u8>,
    search: &mut Search,
    word: &[u8],
) -> Result<(), AllocError> {
    let lits = clause(alloc, word)?;
    let vars = search.vars();
    if !lits.iter().all(|l| l.var < vars) {
        return tell(out, "unknown");
    }
    let number = search.learn(lits.as_slice())?;
    tell_number(alloc, out, number)
}

fn tell_value(out: &mut Vec<u8>, search: &Search, l: Lit) -> Result<(), AllocError> {
    if l.var >= search.vars() {
        return tell(out, "unknown");
    }
    match search.value(l) {
        None => tell(out, "free"),
        Some(true) => tell(out, "true"),
        Some(false) => tell(out, "false"),
    }
}

fn tell_place(alloc: Global, out: &mut Vec<u8>, search: &Search, l: Lit) -> Result<(), AllocError> {
    if l.var >= search.vars() {
        return tell(out, "unknown");
    }
    match search.place(l.var) {
        None => tell(out, "none"),
        Some(place) => tell_number(alloc, out, place),
    }
}

fn propagate(
    alloc: Global,
    out: &mut Vec<u8>,
    search: &mut Search,
    numbered: bool,
) -> Result<(), AllocError> {
    match search.propagate() {
        None => tell(out, "open"),
        Some(c) => {
            if numbered {
                tell_number(alloc, out, c)
            } else {
                tell(out, "false")
            }
        }
    }
}

fn step(
    alloc: Global,
    out: &mut Vec<u8>,
    search: &mut Search,
    word: &[u8],
) -> Result<(), AllocError> {
    match word {
        [b'*'] => propagate(alloc, out, search, true),
        [b'~'] => propagate(alloc, out, search, false),
        [b'?'] => tell_entries(alloc, out, search),
        [b'+', l] => push(out, search, literal(*l)),
        [b'<', n] => back(out, search, n.saturating_sub(b'0') as usize),
        [b'=', l] => tell_value(out, search, literal(*l)),
        [b'@', l] => tell_place(alloc, out, search, literal(*l)),
        [b'%'] => {
            for c in 0..search.count() {
                tell_clause(out, search, c)?;
            }
            Ok(())
        }
        [b'!', ..] => learn(alloc, out, search, &word[1..]),
        _ => tell(out, "what"),
    }
}

fn told(alloc: Global, clauses: &str, steps: &str) -> Result<Vec<u8>, AllocError> {
    let mut search = begun(alloc, clauses)?;
    let mut out = Vec::new(alloc);
    for word in steps.split(" ") {
        step(alloc, &mut out, &mut search, word.as_bytes())?;
    }
    Ok(out)
}

// The lines that tell something else than they say, each with what it tells.
fn differing(alloc: Global, table: &str) -> Result<Vec<u8>, AllocError> {
    let mut report = Vec::new(alloc);
    for line in table.lines() {
        let (head, want) = line.split_once(" => ").unwrap_or((line, ""));
        let (clauses, steps) = head.split_once("; ").unwrap_or(("", head));
        let found = told(alloc, clauses, steps)?;
        if found.as_slice() != want.as_bytes() {
            report.extend_from_slice(line.as_bytes())?;
            report.extend_from_slice(b" BUT ")?;
            report.extend_from_slice(found.as_slice())?;
            report.push(b'\n')?;
        }
    }
    Ok(report)
}

#[test]
fn clauses_force_until_one_is_false(rt: HostRuntime) -> Result<(), Fail> {
    let report = differing(rt.alloc(), STEPS)?;
    assert_eq!(rt; report.as_slice(), b"".as_slice());
    Ok(())
}

#[test]
fn entries_are_taken_back_from_anywhere(rt: HostRuntime) -> Result<(), Fail> {
    let report = differing(rt.alloc(), BACK)?;
    assert_eq!(rt; report.as_slice(), b"".as_slice());
    Ok(())
}

#[test]
fn any_clause_may_be_learned_at_any_time(rt: HostRuntime) -> Result<(), Fail> {
    let report = differing(rt.alloc(), LEARNED)?;
    assert_eq!(rt; report.as_slice(), b"".as_slice());
    Ok(())
}
