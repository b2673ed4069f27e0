//! One call of `Files::eye`.

use crate::duty::Duty;
use crate::text::Text;

/// The name and the duty of a call of `Files::eye`.
#[derive(Debug, Drop)]
pub struct Asked {
    pub name: Text,
    pub duty: Duty,
}
