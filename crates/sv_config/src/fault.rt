//! What is wrong with a descriptor.

ghost use Rattle.std.specs.Prelude.{◌≡◌};
ghost use Rattle.sv_config.specs.declared.fault.ConfigFault.TheVariants.{Memory};

use std::alloc::{AllocError, AllocFailed};
use thiserror::Error;

/// Why a descriptor was not read. Of the faults 1 to 7 that it has, the least is told.
#[derive(Clone, Copy, Debug, PartialEq, Eq, Error)]
pub enum ConfigFault {
    /// Fault 1: the text is no document of TOML 1.1.
    #[error("the descriptor is no TOML: look for a key given twice, an open quote or bracket, or an integer past 64 bits")]
    NotToml,
    /// Fault 2: a table lacks a field that it must have.
    #[error("a required field is missing: `context`, the `path` of a context or error page, the `name` of a servlet, filter or listener, the `patterns` of a servlet, the `filter` of a filter mapping and its `pattern` or `servlet`, the `answers` of `once`, the `path` of a file mapping and its `file` or `folder`, or the `secure` of a cookie that browsers drop without it")]
    MissingField,
    /// Fault 3: a field, or a member of an array, is of another kind than it must be.
    #[error("a field has a value of the wrong kind: `patterns` and `dispatch` are arrays of texts, `ports` is one of integers, `context` and what a context lists are arrays of tables, `settings` is a table of texts")]
    WrongKind,
    /// Fault 4: a key, a servlet, a filter or a dispatcher that nothing declares.
    #[error("an unknown name: a key that no table has, a filter mapping whose filter or servlet its context does not declare, a dispatcher other than REQUEST, FORWARD, INCLUDE and ERROR, or a `same-site` other than Strict, Lax and None")]
    UnknownName,
    /// Fault 5: a pattern, a context path, a name, the path of an error page or file or a Cache-Control that is badly spelled.
    #[error("a badly spelled text: a pattern over 256 bytes or with a control character, a context path that is not empty and not like /shop, a name of other characters than letters, digits, `-` and `_`, an error page's path that does not begin with /, a cookie's name that is no token or not for its context, or what a file mapping has")]
    BadPattern,
    /// Fault 6: something stands twice that may stand once.
    #[error("something is given twice: a context path, a port, a name, pattern or error page in one context, both `pattern` and `servlet`, both `status` and `fault`, or both `file` and `folder`")]
    Duplicate,
    /// Fault 7: a count or a number outside its limits.
    #[error("a limit is passed: too many tables, patterns or ports, no port in `ports`, a number out of its range, a name of no byte or of more than 64, or a setting's name over 128 bytes or value over 8192")]
    LimitExceeded,
    /// Fault 8: memory was refused.
    #[error("memory was refused while the descriptor was read")]
    Memory,
}

impl From<AllocError> for ConfigFault {
    ghost from_gives = { λ _ fault. fault ≡ Memory };

    fn from(_refused: AllocError) -> ConfigFault {
        ConfigFault::Memory
    }
}

impl<T: Drop> From<AllocFailed<T>> for ConfigFault {
    ghost from_gives = { λ _ fault. fault ≡ Memory };

    fn from(_refused: AllocFailed<T>) -> ConfigFault {
        ConfigFault::Memory
    }
}
