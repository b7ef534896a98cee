//! A value that is let go by one call, so that the proof of a function that holds it has one step for it.

ghost use Rattle.std.specs.Prelude.{◌≡◌};

/// A value of its own.
pub struct Own<T: Drop> {
    pub value: T,
}

impl<T: Drop> Own<T> {
    pub fn new(value: T) -> Own<T>
        ensures { result.value ≡ value }
    {
        Own { value }
    }

    pub fn into_value(self) -> T
        ensures { result ≡ self.value }
    {
        let Own { value } = self;
        value
    }
}

impl<T: Drop> Drop for Own<T> {
    fn drop(self) {
        let Own { value: _ } = self;
    }
}
