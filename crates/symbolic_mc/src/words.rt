// The words of a command.
ghost use Rattle.std.specs.Prelude.{◌≡◌};
ghost use Rattle.std.specs.Char.{is_ascii_digit};
ghost use Rattle.std.specs.List.{list_all};
ghost use Rattle.std.specs.Option.{option_map};
ghost use Rattle.symbolic_mc.specs.Words.{request_of, recheck_of, number_of};

/// The commands `check FILE LENGTH` and `check FILE LENGTH CONFLICTS`.
#[derive(Clone, Copy, Drop)]
pub(crate) struct Request<'a> {
    pub file: &'a str,
    /// The greatest number of steps of an execution.
    pub longest: u32,
    /// How many conflicts may be spent, where that is said.
    pub budget: Option<u64>,
}

const LONGEST: u64 = 1000;

const MOST_CONFLICTS: u64 = 1_000_000_000;

/// What is to be checked, if the words ask for that.
pub(crate) fn requested(words: &[String]) -> Option<Request<'_>>
    ensures { option_map (λ r. (r.file.now, r.longest, r.budget)) result ≡ request_of words.now }
{
    match words {
        [command, file, longest] => {
            if command.as_str() != "check" {
                return None;
            }
            let longest = number(longest.as_str(), 0, LONGEST)?;
            Some(Request {
                file: file.as_str(),
                longest: longest as u32,
                budget: None,
            })
        }
        [command, file, longest, conflicts] => {
            if command.as_str() != "check" {
                return None;
            }
            let longest = number(longest.as_str(), 0, LONGEST)?;
            let conflicts = number(conflicts.as_str(), 1, MOST_CONFLICTS)?;
            Some(Request {
                file: file.as_str(),
                longest: longest as u32,
                budget: Some(conflicts),
            })
        }
        _ => None,
    }
}

/// The file of the certificate that is to be checked again, if the words ask for that: `recheck CERT`.
pub(crate) fn recheck_requested(words: &[String]) -> Option<&str>
    ensures { option_map (λ cert. cert.now) result ≡ recheck_of words.now }
{
    match words {
        [command, cert] => {
            if command.as_str() == "recheck" {
                Some(cert.as_str())
            } else {
                None
            }
        }
        _ => None,
    }
}

// Decimal digits, of a number from the least to the greatest.
fn number(text: &str, least: u64, greatest: u64) -> Option<u64>
    ensures { result ≡ number_of least greatest text.now }
{
    if !are_digits(text.as_bytes()) {
        return None;
    }
    match text.parse::<u64>() {
        Ok(number) if least <= number && number <= greatest => Some(number),
        _ => None,
    }
}

fn are_digits(text: &[u8]) -> bool
    ensures { result ≡ list_all is_ascii_digit text.now }
{
    text.iter().all(|byte| byte.is_ascii_digit())
}
