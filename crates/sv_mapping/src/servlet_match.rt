//! The servlet of a path, and what it is shown of the path (Jakarta Servlet 6.0, section 3.5).

ghost use Rattle.std.specs.Prelude.{◌≡◌, take, drop, if◌then◌else◌, Some, None, length, false};
ghost use Rattle.std.specs.Option.{option_map};
ghost use Rattle.std.specs.Str.{IsCharBoundary};

/// The servlet that a path is mapped to, and where the path is split.
#[derive(Clone, Copy, Debug, PartialEq, Eq)]
pub struct Match {
    /// The number of the servlet.
    pub servlet: usize,
    /// The servlet path is the path up to this byte.
    pub split: usize,
    /// Whether the path from `split` on is the path info. Else there is no path info.
    pub info: bool,
}

impl Match {
    /// The match of a servlet that is shown the whole path, without path info.
    pub fn whole(servlet: usize, path: &str) -> Match
        ensures { result ≡ record { servlet = servlet; split = length path.now; info = false } }
    {
        Match {
            servlet,
            split: path.len(),
            info: false,
        }
    }

    /// The servlet path, given the path that was mapped.
    pub fn servlet_path<'a>(&self, path: &'a str) -> &'a str
        requires { IsCharBoundary path.now self.now.split }
        ensures { result.now ≡ take self.now.split path.now }
    {
        &path[..self.split]
    }

    /// The path info, given the path that was mapped.
    pub fn path_info<'a>(&self, path: &'a str) -> Option<&'a str>
        requires { IsCharBoundary path.now self.now.split }
        ensures { option_map (λ x. x.now) result ≡ (if self.now.info then Some (drop self.now.split path.now) else None) }
    {
        if self.info {
            Some(&path[self.split..])
        } else {
            None
        }
    }
}
