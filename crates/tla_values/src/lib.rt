//! Values of the language: truth values, whole numbers, texts, sets and functions.
#![tactic(auto)]

mod boxed;
mod file_names;
mod functions;
mod list;
mod names;
mod normal;
mod order;
mod printing;
mod search;
mod sets;
mod text;
mod value;

pub use boxed::Boxed;
pub use file_names::{module_name, without_folder};
pub use functions::{apply, domain_of, fun_of, override_at};
pub use list::List;
pub use names::{is_name, is_name_byte};
pub use normal::{is_function, is_normal, is_set};
pub use order::{cmp_values, order_is_total, same_value};
pub use printing::{show, texts_are_read_one_way};
pub use search::find_argument;
pub use sets::{copy_onto, inter_of, member, minus, set_of, subset, union_of};
pub use text::{Text, copy_text, copy_texts, same_text};
pub use value::{Value, copy_value};
