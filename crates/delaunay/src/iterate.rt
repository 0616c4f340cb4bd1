// The loop with fuel. Memory may hold anything, so no walk on it ends by itself.
ghost use Rattle.delaunay.specs.Iterate.{Iterates};

// Steps from `start` till one is not taken.
pub(crate) fn iterate<T: Copy, F: Fn(T) -> Option<T>>(fuel: u64, start: T, step: F) -> T
    requires { F.IsAlwaysCallable step }
    ensures { Iterates (F.post step) fuel start result }
{
    let mut state = start;
    'stepping: for _ in 0..fuel {
        let Some(next) = step(state) else {
            break 'stepping;
        };
        state = next;
    }
    state
}
