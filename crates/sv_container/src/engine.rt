//! The container as an engine.

ghost use Rattle.std.specs.Prelude.{◌≡◌, slice_get};
ghost use Rattle.sv_container.specs.Application.{apps_of};
ghost use Rattle.sv_container.specs.Serving.{deployed, in_service, place_for};

use crate::container::Container;
use crate::outcome::served_outside;
use crate::tell::tell_all;
use sv_mapping::{choose_context, path_in_context};
use sv_model::{Engine, EngineFault, Key, Outcome, Request, Secret, Session, Told};
use sv_servlet::{Filter, Listener, Servlet};
use sv_target::session_cookie;

impl<S: Servlet, F: Filter, L: Listener> Container<S, F, L> {
    /// The place, where there is an application in service.
    #[tactic(auto, unfolding(crate::specs::Application::apps_of))]
    fn in_service(&self, place: usize) -> Option<usize>
        ensures { result ≡ in_service place (slice_get (apps_of S.Servlet F.Filter self.now.applications.items) place) }
    {
        let application = self.applications.get(place)?;
        if application.is_in_service {
            Some(place)
        } else {
            None
        }
    }

    /// The place of the application of a path, where it is in service.
    #[tactic(auto, unfolding(crate::specs::Serving::place_for))]
    fn place_of(&self, path: &str) -> Option<usize>
        ensures { result ≡ place_for (deployed S.Servlet F.Filter L.hears self.now) path.now }
    {
        let place = choose_context(self.paths.as_slice(), path)?;
        self.in_service(place)
    }
}

impl<S: Servlet, F: Filter, L: Listener> Engine for Container<S, F, L> {
    ghost use Rattle.sv_container.specs.Listening.{noted_of};
    ghost use Rattle.sv_container.specs.Serving.{IsSound, container_meaning, deployed};
    ghost use Rattle.sv_container.specs.Laws.{touches_only_handed, keeps_limits, names_keys};

    ghost meaning = { λ c. container_meaning (deployed S.Servlet F.Filter L.hears c) };

    ghost heard = { λ c. noted_of L.noted c.listeners.items };

    ghost valid = { λ c. IsSound (deployed S.Servlet F.Filter L.hears c) };

    fn names(&self, request: &Request) -> Option<(Key, Secret)> {
        let place = self.place_of(request.path.as_str())?;
        let application = &self.applications[place];
        session_cookie(
            application.cookie.name_bytes(),
            request.cookies.as_slice(),
            application.number,
        )
    }

    fn serve(
        &mut self,
        request: &Request,
        session: Option<(Key, &Session)>,
        now: u64,
        fresh: (Key, Secret),
    ) -> Result<Outcome, EngineFault> {
        let Some(place) = self.place_of(request.path.as_str()) else {
            return Ok(served_outside(self.alloc, request)?);
        };
        let path = path_in_context(self.paths[place].as_str(), request.path.as_str());
        let application = &mut self.applications[place];
        if application.once.is_some() {
            return application.serve_once(self.alloc, request, path, session, now, fresh);
        }
        Ok(application.serve(self.alloc, request, path, session, now, fresh)?)
    }

    fn tell(&mut self, told: &[Told]) {
        tell_all(&mut self.listeners, told);
    }

    ghost untouched = { λ c v. touches_only_handed (deployed S.Servlet F.Filter L.hears c) v };

    ghost within_limits = { λ c v. keeps_limits (deployed S.Servlet F.Filter L.hears c) v };

    ghost names_keys = { λ c v. names_keys (deployed S.Servlet F.Filter L.hears c) };
}
