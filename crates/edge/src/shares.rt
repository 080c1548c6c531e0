// The ordinate of a slice, from a line's ordinate and the two edge factors.
ghost use Rattle.std.specs.Prelude.{◌≡◌, ◌<◌, ◌≤◌, unsigned_abs};
ghost use Rattle.edge.specs.Edges.{edge_mix};

// The ordinate of slice j of n, where the line has v and the edges have the factors f and g.
pub fn mix_edges(v: i32, f: i32, g: i32, n: usize, j: usize) -> i32
    requires sized { (j < n) × (n ≤ 300) }
    requires within { (unsigned_abs v ≤ 50000) × ((unsigned_abs f ≤ 2000) × (unsigned_abs g ≤ 2000)) }
    ensures { result ≡ edge_mix v f g n j }
{
    let from_left = i64::from(f) * (2 * n - 2 * j - 1) as i64;
    let from_right = i64::from(g) * (2 * j + 1) as i64;
    (i64::from(v) * (from_left + from_right)).div_euclid((2000 * n) as i64) as i32
}
