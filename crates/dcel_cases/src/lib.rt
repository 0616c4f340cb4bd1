// Small meshes that are built and walked round, as tests. They have a crate of their own, so that what they test is proved once.
#![tactic(auto)]

#[cfg(test)]
mod tests {
    use dcel::{
        EdgeId, Memory, Site, VertexId, WORDS, attach, clear, close_ear, data, extend_line, face,
        faces, flip, half_edges, next, origin, out, prev, put_first, put_second, split_face,
        split_hull_edge, split_line_end, vertices, x,
    };
    use std::alloc::{AllocError, Global};
    use std::process::Abort;

    // A line of three vertices: once round it and back. Each test takes the runtime, to assert, and the memory: a struct of both would have these for its methods.
    fn build_line(rt: &impl Abort, memory: &mut Memory) {
        assert_eq!(rt; memory.len(), 540688);
        clear(memory);
        put_first(memory, site(0, 0, 7));
        put_second(memory, site(4, 0, 8));
        let end = extend_line(memory, EdgeId(0), site(8, 0, 9));
        assert_eq!(rt; end.0, 2);
        assert_eq!(rt; vertices(memory), 3);
        assert_eq!(rt; half_edges(memory), 4);
        assert_eq!(rt; faces(memory), 1);
        assert_eq!(rt; next(memory, EdgeId(0)).0, 2);
        assert_eq!(rt; next(memory, EdgeId(2)).0, 3);
        assert_eq!(rt; next(memory, EdgeId(3)).0, 1);
        assert_eq!(rt; next(memory, EdgeId(1)).0, 0);
        assert_eq!(rt; origin(memory, EdgeId(3)).0, 2);
        assert_eq!(rt; data(memory, VertexId(1)), 8);
        assert_eq!(rt; x(memory, end), 8);
    }

    // A triangle with a vertex inside: three turns round that vertex come back.
    fn build_star(rt: &impl Abort, memory: &mut Memory) {
        assert_eq!(rt; memory.len(), 540688);
        clear(memory);
        put_first(memory, site(0, 0, 0));
        put_second(memory, site(9, 0, 0));
        let _ = attach(memory, EdgeId(0), site(0, 9, 0));
        assert_eq!(rt; next(memory, EdgeId(1)).0, 5);
        assert_eq!(rt; next(memory, EdgeId(5)).0, 3);
        assert_eq!(rt; next(memory, EdgeId(3)).0, 1);
        let p = split_face(memory, EdgeId(0), site(2, 2, 0));
        assert_eq!(rt; faces(memory), 4);
        let first = out(memory, p);
        let second = prev(memory, first).twin();
        let third = prev(memory, second).twin();
        assert_eq!(rt; prev(memory, third).twin().0, first.0);
        assert_eq!(rt; origin(memory, second).0, p.0);
        assert_eq!(rt; origin(memory, third).0, p.0);
    }

    // Two triangles over one edge, which is flipped, and an ear closed.
    fn build_quadrilateral(rt: &impl Abort, memory: &mut Memory) {
        assert_eq!(rt; memory.len(), 540688);
        clear(memory);
        put_first(memory, site(0, 0, 0));
        put_second(memory, site(8, 0, 0));
        let middle = split_line_end(memory, EdgeId(0), site(4, 0, 0));
        assert_eq!(rt; origin(memory, EdgeId(2)).0, middle.0);
        let _ = attach(memory, EdgeId(0), site(4, 5, 0));
        let _ = attach(memory, EdgeId(1), site(4, 1, 0));
        assert_eq!(rt; faces(memory), 3);
        flip(memory, EdgeId(0));
        assert_eq!(rt; origin(memory, EdgeId(0)).0, 4);
        assert_eq!(rt; origin(memory, EdgeId(1)).0, 3);
        assert_eq!(rt; face(memory, EdgeId(0)).0, 1);
        let before = next(memory, EdgeId(2)).0;
        close_ear(memory, EdgeId(5));
        assert_eq!(rt; half_edges(memory), 14);
        let _ = split_hull_edge(memory, EdgeId(4), site(1, 1, 0));
        assert_eq!(rt; vertices(memory), 6);
        assert_eq!(rt; before, 3);
    }

    // Shorter than the literal; bench_delaunay has the like, in a crate of its own.
    fn site(x: u64, y: u64, data: u64) -> Site {
        Site { x, y, data }
    }

    // Memory for one mesh, on the heap.
    fn with_memory<F: FnOnce(&mut Memory)>(alloc: Global, build: F) -> Result<(), AllocError>
        requires { F.IsAlwaysCallable build }
    {
        let mut words = vec![in alloc; 0u64; WORDS]?;
        build(words.as_mut_array::<WORDS>().unwrap());
        Ok(())
    }

    #[test]
    fn line(rt: HostRuntime) -> Result<(), AllocError> {
        with_memory(rt.alloc(), |memory| build_line(&rt, memory))
    }

    #[test]
    fn star(rt: HostRuntime) -> Result<(), AllocError> {
        with_memory(rt.alloc(), |memory| build_star(&rt, memory))
    }

    #[test]
    fn quadrilateral(rt: HostRuntime) -> Result<(), AllocError> {
        with_memory(rt.alloc(), |memory| build_quadrilateral(&rt, memory))
    }
}
