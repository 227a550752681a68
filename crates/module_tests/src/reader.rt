// Sets of modules with what is expected of them. A line that begins with `>` is a heading: a word, and what belongs to
// it; the lines up to the next heading are its body.
//
//   >case T         a new set of the title T
//   >file M         the body is the text of M.tla; the first module is the root
//   >empty M        M.tla is there and has no bytes
//   >each A B       the body is the text of a module for each number from A to B; `%` in it is the number and `@` the next
//   >folder F       the files stand in this folder
//   >root M         M is the root
//   >fails n ..     these calls of the files fail, numbered from 0
//
//   >files M ..     the modules whose files were read, in their order
//   >refused L      the line that tells the refusal
//   >ok             there is a flat module
//   >names x ..     the declared names as their numbers count them
//   >aliases        the aliases of types, a line `name=T` each
//   >flat           `constant c P`, `variable x P`, then `define NAME/PARAMETERS P`, then `assume P`. A name that no text
//                   spells is `!!`, and a place `-` is not compared.
//   >expand, >job   what expansion gives; they are not read here
//   >types          what typing gives; it is not read here
use std::alloc::{AllocError, Global};
use std::test::Fail;
use tla_values::List;
use tool_outside::MemoryFiles;

// A heading with its body.
#[derive(Drop)]
pub(crate) struct Part<'a> {
    pub(crate) word: &'a str,
    pub(crate) rest: &'a str,
    pub(crate) body: Vec<u8>,
}

#[derive(Drop)]
pub(crate) struct Case<'a> {
    pub(crate) title: &'a str,
    pub(crate) parts: Vec<Part<'a>>,
}

/// The sets of a text.
pub(crate) fn cases<'a>(alloc: Global, text: &'a str) -> Result<Vec<Case<'a>>, AllocError> {
    let mut cases = Vec::new(alloc);
    for line in text.lines() {
        add_line(alloc, line, &mut cases)?;
    }
    Ok(cases)
}

fn add_line<'a>(alloc: Global, line: &'a str, cases: &mut Vec<Case<'a>>) -> Result<(), AllocError> {
    match line.strip_prefix('>') {
        None => add_text(line, cases),
        Some(heading) => {
            let (word, rest) = heading.split_once(' ').unwrap_or((heading, ""));
            add_heading(alloc, word, rest, cases)
        }
    }
}

fn add_heading<'a>(
    alloc: Global,
    word: &'a str,
    rest: &'a str,
    cases: &mut Vec<Case<'a>>,
) -> Result<(), AllocError> {
    if word == "case" {
        let parts = Vec::new(alloc);
        cases.push(Case { title: rest, parts })?;
        return Ok(());
    }
    let body = Vec::new(alloc);
    if let Some(case) = cases.last_mut() {
        case.parts.push(Part { word, rest, body })?;
    }
    Ok(())
}

fn add_text<'a>(line: &'a str, cases: &mut Vec<Case<'a>>) -> Result<(), AllocError> {
    if let Some(case) = cases.last_mut() {
        if let Some(part) = case.parts.last_mut() {
            part.body.extend_from_slice(line.as_bytes())?;
            part.body.push(b'\n')?;
        }
    }
    Ok(())
}

impl<'a> Case<'a> {
    // The first heading of the word.
    pub(crate) fn part(&self, word: &str) -> Option<&Part<'a>> {
        self.parts.iter().find(|part| part.word == word)
    }

    // What belongs to the first heading of the word, or nothing.
    fn rest(&self, word: &str) -> &'a str {
        match self.part(word) {
            Some(part) => part.rest,
            None => "",
        }
    }

    /// The file of the root.
    pub(crate) fn root(&self, alloc: Global) -> Result<String, AllocError> {
        match self.part("root") {
            Some(part) => self.file(alloc, part.rest),
            None => self.first(alloc),
        }
    }

    // The file of the first module.
    fn first(&self, alloc: Global) -> Result<String, AllocError> {
        match self.part("file") {
            Some(part) => self.file(alloc, part.rest),
            None => self.file(alloc, self.rest("empty")),
        }
    }

    fn file(&self, alloc: Global, name: &str) -> Result<String, AllocError> {
        let mut file = String::new(alloc);
        file.push_str(self.rest("folder"))?;
        file.push_str(name)?;
        file.push_str(".tla")?;
        Ok(file)
    }

    /// Puts the files of the set.
    pub(crate) fn put_files(&self, alloc: Global, files: &mut MemoryFiles) -> Result<(), Fail> {
        for part in &self.parts {
            match part.word {
                "file" => self.put(alloc, part.rest, &part.body, files)?,
                "empty" => self.put(alloc, part.rest, b"", files)?,
                "each" => self.put_each(alloc, part, files)?,
                _ => {}
            }
        }
        Ok(())
    }

    fn put(
        &self,
        alloc: Global,
        name: &str,
        text: &[u8],
        files: &mut MemoryFiles,
    ) -> Result<(), AllocError> {
        let file = self.file(alloc, name)?;
        files.put(file.as_str(), text)
    }

    fn put_each(
        &self,
        alloc: Global,
        part: &Part<'a>,
        files: &mut MemoryFiles,
    ) -> Result<(), Fail> {
        let Some((first, last)) = part.rest.split_once(' ') else {
            return Err("no two numbers".into());
        };
        let first: u16 = first.parse()?;
        let last: u16 = last.parse()?;
        for number in u32::from(first)..u32::from(last) + 1 {
            self.put_numbered(alloc, &part.body, number, files)?;
        }
        Ok(())
    }

    fn put_numbered(
        &self,
        alloc: Global,
        text: &[u8],
        number: u32,
        files: &mut MemoryFiles,
    ) -> Result<(), AllocError> {
        let name = format!(in alloc; "M{number}")?;
        let text = numbered(alloc, text, number)?;
        self.put(alloc, name.as_str(), text.as_slice(), files)
    }

    /// The calls that fail.
    pub(crate) fn fails(&self, alloc: Global) -> Result<List<u64>, Fail> {
        let mut fails = List::new(alloc);
        for word in self.rest("fails").split_whitespace() {
            let number: u64 = word.parse()?;
            fails.push(number)?;
        }
        Ok(fails)
    }
}

// The text with the number for `%` and the next one for `@`.
fn numbered(alloc: Global, text: &[u8], number: u32) -> Result<Vec<u8>, AllocError> {
    let this = format!(in alloc; "{number}")?;
    let after = number.wrapping_add(1);
    let next = format!(in alloc; "{after}")?;
    let mut out = Vec::new(alloc);
    for byte in text {
        match *byte {
            b'%' => out.extend_from_slice(this.as_bytes())?,
            b'@' => out.extend_from_slice(next.as_bytes())?,
            other => out.push(other)?,
        }
    }
    Ok(out)
}
