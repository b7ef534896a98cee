//! Laws of the shop. Each function does nothing; its contract is the law.

ghost use Rattle.std.specs.Prelude.{◌≡◌, ℕ, List, bytes_eq, codes, false, Some, IsSomeAnd};
ghost use Rattle.sv_model.specs.declared.key.Key.{Key};
ghost use Rattle.sv_model.specs.declared.outcome.Birth.TheVariants.{Absent};
ghost use Rattle.sv_model.specs.declared.session.Session.{Session};
ghost use Rattle.sv_servlet.specs.Call.{Asked};
ghost use Rattle.sv_servlet.specs.Servlet.{Lent, lent};
ghost use Rattle.sv_servlet.specs.declared.servlet.Next.{Next as Following};
ghost use Rattle.sv_session.specs.Edit.{Edit, held_of};
ghost use Rattle.sv_web.specs.Work.{Work, answered};
ghost use Rattle.example_servlets.specs.Kept.{seen};
ghost use Rattle.example_servlets.specs.Login.{GoesOnAs, entered, login, renewed};

/// Whoever logs in with a session that the request brought has it still, with its cart and all else that it has, under the same
/// key and with the fresh secret in place of its own: so its id is another. Whatever the login does then, it does with that.
pub fn login_keeps_the_cart()
    ensures session { (e : Edit) (held : Key × Session) → held_of e ≡ Some held → e.birth ≡ Absent → e.id_changed ≡ false
        → IsSomeAnd (held_of (renewed e)) (λ now. GoesOnAs now held e) }
    ensures work { (more : Work Following) (l : Lent) (held : Key × Session) → held_of l.edit ≡ Some held → l.edit.birth ≡ Absent → l.edit.id_changed ≡ false
        → answered (entered more) l ≡ answered more (lent (renewed l.edit) l.reply) }
{}

/// Whatever the login is asked, and whatever it answers, the cart after it is the cart before it, and so is each other attribute
/// but the name: the session is the one that was there under another id, or a new one where there was none.
pub fn login_leaves_the_rest()
    ensures cart { (call : Asked) (l : Lent) → seen (answered (login call) l).lent.edit (codes "cart") ≡ seen l.edit (codes "cart") }
    ensures rest { (call : Asked) (l : Lent) (name : List ℕ) → bytes_eq name (codes "name") ≡ false
        → seen (answered (login call) l).lent.edit name ≡ seen l.edit name }
{}
