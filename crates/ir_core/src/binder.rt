//! Values under a binder.
ghost use Rattle.std.specs.Prelude.{◌≡◌, None, Some, MatchOption};

use crate::BoundVarKinds;

/// A value and the variables that are bound in it. The value names them by index 0, and by one more for each binder between.
#[derive(Clone, Copy, PartialEq, Eq, Hash, Debug, Drop)]
pub struct Binder<T> {
    pub value: T,
    pub bound_vars: BoundVarKinds,
}

impl<T> Binder<T> {
    /// The value under a binder of these variables.
    pub fn bind_with_vars(value: T, bound_vars: BoundVarKinds) -> Binder<T>
        ensures value { result.value ≡ value }
        ensures variables { result.bound_vars ≡ bound_vars }
    {
        Binder { value, bound_vars }
    }

    /// The value without its binder, whose variables stand in it as they did.
    pub fn skip_binder(self) -> T
        ensures { result ≡ self.value }
    {
        let Binder {
            value,
            bound_vars: _,
        } = self;
        value
    }

    /// The variables.
    pub fn bound_vars(&self) -> BoundVarKinds
        ensures { result ≡ self.now.bound_vars }
    {
        self.bound_vars
    }

    /// Another value under a binder of the same variables.
    pub fn rebind<U>(&self, value: U) -> Binder<U>
        ensures value { result.value ≡ value }
        ensures variables { result.bound_vars ≡ self.now.bound_vars }
    {
        Binder::bind_with_vars(value, self.bound_vars)
    }

    /// What the closure gives for the value, under a binder of the same variables.
    pub fn map_bound<U, F: FnOnce(T) -> U>(self, f: F) -> Binder<U>
        requires { F.pre f self.value }
        ensures called { F.post f self.value result.value }
        ensures variables { result.bound_vars ≡ self.bound_vars }
    {
        let Binder { value, bound_vars } = self;
        Binder::bind_with_vars(f(value), bound_vars)
    }

    /// The value in place, under a binder of the same variables.
    pub fn as_ref(&self) -> Binder<&T>
        ensures value { result.value.now ≡ self.now.value }
        ensures variables { result.bound_vars ≡ self.now.bound_vars }
    {
        Binder::bind_with_vars(&self.value, self.bound_vars)
    }
}

impl<T> Binder<Option<T>> {
    /// The value under the binder, where there is one.
    pub fn transpose(self) -> Option<Binder<T>>
        ensures { MatchOption self.value (result ≡ None) (λ value. result ≡ Some (record { value = value; bound_vars = self.bound_vars })) }
    {
        let Binder { value, bound_vars } = self;
        value.map(|value| Binder::bind_with_vars(value, bound_vars))
    }
}

#[cfg(test)]
mod tests {
    use super::*;
    use crate::Ty;

    const VARIABLES: BoundVarKinds = BoundVarKinds { index: 1 };

    const TYPE: Ty = Ty { index: 7 };

    #[test]
    fn binders_keep_their_variables(rt: HostRuntime) {
        let binder = Binder::bind_with_vars(TYPE, VARIABLES);
        assert_eq!(rt; binder.skip_binder(), TYPE);
        assert_eq!(rt; binder.bound_vars(), VARIABLES);
        assert_eq!(rt; binder.rebind(5), Binder::bind_with_vars(5, VARIABLES));
        assert_eq!(rt; binder.map_bound(|ty| ty.index), binder.rebind(7));
        assert_eq!(rt; *binder.as_ref().skip_binder(), TYPE);
        assert_eq!(rt; binder.as_ref().bound_vars(), VARIABLES);
        let other = Binder::bind_with_vars(TYPE, BoundVarKinds { index: 2 });
        assert_ne!(rt; binder, other);
        for option in [Some(TYPE), None] {
            let wanted = option.map(|ty| binder.rebind(ty));
            assert_eq!(rt; binder.rebind(option).transpose(), wanted);
        }
    }
}
