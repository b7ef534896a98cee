//! What is given to a context, for its servlets and filters to read.

use sv_model::Text;

/// An initialization parameter of a context (Jakarta Servlet 6.0, section 4.3).
#[derive(Drop)]
pub struct Setting {
    pub name: Text,
    pub value: Text,
}
