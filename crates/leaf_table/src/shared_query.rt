// A query of which there is one copy, for all who ask it.
ghost use Rattle.std.specs.Prelude.{◌≡◌, ◌⊎◌, None, IfOk};

use leaf_model::Query;
use std::alloc::{AllocError, Global};
use std::marker::Model;
use std::sync::Arc;

/// One of the owners of a copy of a query. Contracts see it as the query.
#[derive(Drop)]
pub struct SharedQuery {
    inner: Arc<Query>,
}

impl Model for SharedQuery {
    ghost use Rattle.std.specs.Arc.{arc_value};
    ghost use Rattle.leaf_model.specs.declared.queries.Query.{Query};

    ghost Value = { Query };

    ghost view = { λ query. arc_value query.inner };
}

impl SharedQuery {
    /// Copies the query. The result is the first owner of the copy.
    pub(crate) fn of(alloc: Global, query: &Query) -> Result<SharedQuery, AllocError>
        ensures { IfOk result (λ copy. copy ≡ query.now) }
    {
        let inner = Arc::new(alloc, query.copy()?)?;
        Ok(SharedQuery { inner })
    }

    /// One more owner of the same copy.
    pub(crate) fn share(&self) -> Result<SharedQuery, AllocError>
        ensures { IfOk result (λ other. other ≡ self.now) }
    {
        let inner = Arc::try_clone(&self.inner)?;
        Ok(SharedQuery { inner })
    }

    /// The copy.
    pub(crate) fn as_query(&self) -> &Query
        ensures { result.now ≡ self.now }
    {
        &*self.inner
    }
}

/// One more owner of a copy, if there is one.
pub(crate) fn shared(copy: &Option<SharedQuery>) -> Option<SharedQuery>
    ensures { (result ≡ None) ⊎ (result ≡ copy.now) }
{
    match copy {
        Some(copy) => match copy.share() {
            Ok(other) => Some(other),
            Err(_) => None,
        },
        None => None,
    }
}
