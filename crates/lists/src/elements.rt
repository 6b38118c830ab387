// The first element of an array that passes a test, by the place where its value stands.
#![tactic(auto, using(crate::proofs::Laws::naming))]

ghost use Rattle.std.specs.Prelude.{◌≡◌, ℕ, Bool};
ghost use Rattle.values.specs.Tree.{Json, tree_at, seen, elements_from};
ghost use Rattle.values.specs.Rules.{first_with};

use jsontext::Next;
use jsontext::space::skip;
use values::walk::next_element;

// Among the elements from the one that begins at a place on. Walks that write into a lent area are loops of their own: after a
// closure that writes, nothing is known of what it wrote.
pub fn first_element<F: Fn(usize) -> bool>(
    s: &[u8],
    at: usize,
    depth: usize,
    test: F,
) -> Option<usize>
    requires { F.IsAlwaysCallable test }
    ensures { (p : Json → Bool) → ((i : ℕ) (r : Bool) → F.post test i r → r ≡ p (tree_at depth s.now i)) → first_with p (elements_from depth s.now at) ≡ seen (tree_at depth s.now) result }
{
    let mut j = at;
    loop {
        let i = skip(s, j);
        if test(i) {
            return Some(i);
        }
        let Ok(Next::More(k)) = next_element(s, j, depth) else {
            return None;
        };
        j = k;
    }
}
