// The annotation of a note: T of the first `@type: T;`, as it is written.
ghost use Rattle.std.specs.Prelude.{◌≡◌, IfNone, IfSome, None, Some};
ghost use Rattle.snowcat_types.specs.Annotated.{annotation_at, annotation_of, behind_text, type_at};

/// The annotation, a part of the note.
pub fn annotation_of(note: &[u8]) -> Option<&[u8]>
    ensures some { IfSome result (λ t. annotation_of note.now ≡ Some t.now) }
    ensures none { IfNone result (annotation_of note.now ≡ None) }
{
    for i in 0..note.len() {
        match annotation_at(&note[i..]) {
            Some(annotation) => return Some(annotation),
            None => {}
        }
    }
    None
}

// The annotation that the bytes begin with.
fn annotation_at(bytes: &[u8]) -> Option<&[u8]>
    ensures some { IfSome result (λ t. annotation_at bytes.now ≡ Some t.now) }
    ensures none { IfNone result (annotation_at bytes.now ≡ None) }
{
    match behind_text(bytes, b"@type:") {
        Some(rest) => type_at(rest),
        None => None,
    }
}

// The bytes up to the first `;`.
fn type_at(bytes: &[u8]) -> Option<&[u8]>
    ensures some { IfSome result (λ t. type_at bytes.now ≡ Some t.now) }
    ensures none { IfNone result (type_at bytes.now ≡ None) }
{
    for i in 0..bytes.len() {
        if bytes[i] == b';' {
            return Some(&bytes[..i]);
        }
        if bytes[i] == b'@' {
            return None;
        }
    }
    None
}

// The bytes behind this beginning.
fn behind_text<'a>(bytes: &'a [u8], beginning: &[u8]) -> Option<&'a [u8]>
    ensures some { IfSome result (λ rest. behind_text beginning.now bytes.now ≡ Some rest.now) }
    ensures none { IfNone result (behind_text beginning.now bytes.now ≡ None) }
{
    let mut i = 0;
    while i < beginning.len() {
        if i >= bytes.len() {
            return None;
        }
        if bytes[i] != beginning[i] {
            return None;
        }
        i += 1;
    }
    Some(&bytes[i..])
}
