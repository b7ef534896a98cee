//! Laws of cookies and targets, over the definitions alone.

ghost use Rattle.std.specs.Prelude.{◌≡◌, ℕ, List, ◌∷◌, ◌++◌, Some, None, All, Any};
ghost use Rattle.sv_model.specs.declared.key.Key.{Key};
ghost use Rattle.sv_model.specs.declared.key.Secret.{Secret};
ghost use Rattle.sv_model.specs.declared.request.Cookie.{Cookie};
ghost use Rattle.sv_target.specs.Cookies.{pairs_of};
ghost use Rattle.sv_target.specs.CookieString.{IsSendable, cookie_string};
ghost use Rattle.sv_target.specs.SessionCookie.{IsCookieOf, IsNameable, session_cookie};
ghost use Rattle.sv_target.specs.Target.{IsOneTarget, IsReadWithin};

/// What a client sends of its cookies is read as those cookies, where each is one that a server may set.
pub fn sent_is_read()
    ensures { (cookies : List Cookie) → All IsSendable cookies
        → pairs_of (cookie_string cookies) ≡ cookies }
{}

/// The cookie of a session is read back as that session, also among other cookies, where none before it names a session
/// of the context.
pub fn written_is_read()
    ensures { (name : List ℕ) (context : ℕ) (key : Key) (secret : Secret)
        (before after : List Cookie) (cookie : Cookie)
        → IsNameable context key secret → IsCookieOf name context key secret cookie
        → session_cookie name before context ≡ None
        → session_cookie name (before ++ cookie ∷ after) context ≡ Some (key, secret) }
{}

/// A session that is read can be named, and its own cookie is among those that were read: so it has one text.
pub fn read_is_written()
    ensures { (name : List ℕ) (context : ℕ) (key : Key) (secret : Secret) (cookies : List Cookie)
        → session_cookie name cookies context ≡ Some (key, secret)
        → IsNameable context key secret × Any (IsCookieOf name context key secret) cookies }
{}

/// A text is one target, or none; and one that begins with `/` is read within a context as the target of a request is.
pub fn target_is_one()
    ensures one { IsOneTarget }
    ensures within { IsReadWithin }
{}
