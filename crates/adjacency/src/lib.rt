// Adjacency: one row of two words for each of 128 vertices (document 01, "there is an edge between every two of its points").
#![tactic(auto)]

ghost use Rattle.std.specs.Prelude.{◌≡◌, ◌<◌, ℕ, List};
ghost use Rattle.adjacency.specs.Rows.{bit_at, put_bit, blank, join};

use std::marker::Model;

// Is there an edge between two vertices? One that is not below 128 has none.
pub fn joined(rows: &[[u64; 2]; 128], u: numbering::Vertex, v: numbering::Vertex) -> bool
    ensures { result ≡ bit_at rows.now u.0 v.0 }
{
    let a = u.0 as usize;
    let b = v.0 as usize;
    if a >= 128 || b >= 128 {
        return false;
    }
    (rows[a][b / 64] >> (b % 64)) % 2 == 1
}

// The edges of a map: bit b of row a says that vertices a and b are joined.
#[derive(Clone, Copy)]
pub struct Rows {
    words: [[u64; 2]; 128],
}

impl Model for Rows {
    ghost Value = { List (List ℕ) };

    ghost view = { λ r. r.words };

    ghost inverse = { λ words. record { words = words } };
}

impl Rows {
    // The rows of any words.
    pub fn of(words: [[u64; 2]; 128]) -> Rows
        ensures { result ≡ words }
    {
        Rows { words }
    }

    // No edge.
    pub fn blank() -> Rows
        ensures { result ≡ blank }
    {
        Rows {
            words: [[0; 2]; 128],
        }
    }

    // Takes every edge away.
    pub fn clear(&mut self)
        ensures { self.new ≡ blank }
    {
        self.words = [[0; 2]; 128];
    }

    // The rows' words.
    pub fn words(&self) -> &[[u64; 2]; 128]
        ensures { result.now ≡ self.now }
    {
        &self.words
    }

    // Enters the edge between two vertices; one that is not below 128 changes nothing.
    pub fn add_edge(&mut self, u: numbering::Vertex, v: numbering::Vertex)
        ensures { self.new ≡ join self.old u.0 v.0 }
    {
        let a = u.0 as usize;
        let b = v.0 as usize;
        if a < 128 && b < 128 {
            put(&mut self.words, a, b);
            put(&mut self.words, b, a);
        }
    }
}

// Sets bit b of row a.
fn put(words: &mut [[u64; 2]; 128], a: usize, b: usize)
    requires { (a < 128) × (b < 128) }
    ensures { words.new ≡ put_bit words.old a b }
{
    words[a][b / 64] |= 1 << (b % 64);
}
