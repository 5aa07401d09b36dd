//! The routes of the office, in a router.

ghost use Rattle.desk_http.specs.Routes.{IsRouted};

use desk_io::NoMemory;
use matchit::Router;
use std::alloc::{AllocError, Global};
use std::fmt;
use std::marker::Model;

/// What a route leads to.
#[derive(Clone, Copy, Debug)]
pub enum Route {
    /// An act.
    Act,
    /// A query.
    Query,
}

/// What a path leads to, and what its parts are.
#[derive(Clone, Copy, Debug)]
pub enum Routed<'p> {
    /// An act: its number and its verb.
    Act(&'p str, &'p str),
    /// A query: its verb.
    Query(&'p str),
    /// Nothing: the path has no route.
    Nothing,
}

/// A router with the office's two routes. It is made once, and each path is asked of it.
#[derive(Drop)]
pub struct Routes {
    router: Router<Route>,
}

impl Model for Routes {
    ghost use Rattle.std.specs.Prelude.{◌≡◌};
    ghost use Rattle.desk_http.specs.Routes.{office_routes};

    ghost Value = { Unit {0} };

    ghost view = { λ _. tt };

    ghost invariant = { λ r. r.router ≡ office_routes };
}

impl fmt::Debug for Routes {
    fn fmt<W: fmt::Write>(&self, f: &mut fmt::Formatter<W>) -> fmt::Result {
        f.write_str("Routes")
    }
}

impl Routes {
    /// The office's routes. They take their memory now, and none later.
    ///
    /// # Errors
    ///
    /// Memory was refused.
    pub fn new(alloc: Global) -> Result<Routes, NoMemory> {
        let mut router = Router::new(alloc);
        let Ok(()) = router.insert("/v1/act/{number}/{verb}", Route::Act) else {
            return Err(AllocError);
        };
        let Ok(()) = router.insert("/v1/ask/{verb}", Route::Query) else {
            return Err(AllocError);
        };
        Ok(Routes { router })
    }

    /// What a path leads to.
    pub fn find<'p>(&self, path: &'p str) -> Routed<'p>
        ensures { IsRouted path.now result }
    {
        let Ok(found) = self.router.at(path) else {
            return Routed::Nothing;
        };
        match found.params.get("verb") {
            None => Routed::Nothing,
            Some(verb) => match *found.value {
                Route::Act => match found.params.get("number") {
                    Some(number) => Routed::Act(number, verb),
                    None => Routed::Nothing,
                },
                Route::Query => Routed::Query(verb),
            },
        }
    }
}
