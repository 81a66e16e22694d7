//! The named quantities of the computation.

ghost use Rattle.std.specs.Prelude.{◌≡◌, ◌∷◌, ◌++◌, OnOk, OnErr};
ghost use Rattle.std.specs.Fmt.{signed_decimal};
ghost use Rattle.drg_algebra.specs.Beginnings.{BeginsWith};
ghost use Rattle.drg_array.specs.Nodes.{node_indices, node_text, node_word};

use crate::claim::write_spaced;
use itoa::Buffer;
use std::alloc::AllocError;

/// A quantity that is computed for an array, with its indices. An answer that a number is too wide
/// names the quantity.
#[derive(Clone, Copy, Debug, PartialEq, Eq)]
pub enum Node {
    /// The size k_i.
    K {
        i: u8,
    },
    /// The number of vertices n.
    N,
    /// The intersection number p^h_ij.
    P {
        h: u8,
        i: u8,
        j: u8,
    },
    /// The polynomial F_j of the recurrence.
    Poly {
        j: u8,
    },
    /// The division by x - r.
    Linear {
        r: i32,
    },
    /// The division by x² - sx + t.
    Quadratic {
        s: i32,
        t: i32,
    },
    /// The cosine u_r of the eigenvalue θ_i.
    U {
        i: u8,
        r: u8,
    },
    /// The multiplicity m_i.
    M {
        i: u8,
    },
    /// The entry P_ir of the eigenmatrix.
    Prow {
        i: u8,
        r: u8,
    },
    /// The entry Q_ri of the dual eigenmatrix.
    Qrow {
        r: u8,
        i: u8,
    },
    /// The recurrence that P_ij meets.
    Rec {
        i: u8,
        j: u8,
    },
    /// The entry i, j of the product P·Q.
    Pq {
        i: u8,
        j: u8,
    },
    /// The Krein parameter q^h_ij.
    Krein {
        i: u8,
        j: u8,
        h: u8,
    },
    /// The product Q_ri·Q_rj.
    Kprod {
        i: u8,
        j: u8,
        r: u8,
    },
    /// The sign of q^h_ij.
    Sign {
        i: u8,
        j: u8,
        h: u8,
    },
    /// The absolute bound of i and j.
    Absolute {
        i: u8,
        j: u8,
    },
    /// The counting equation a x y of the type u v w.
    Eq {
        u: u8,
        v: u8,
        w: u8,
        a: u8,
        x: u8,
        y: u8,
    },
    /// The equation of the type u v w from the vanishing q^h_ij.
    Keq {
        u: u8,
        v: u8,
        w: u8,
        i: u8,
        j: u8,
        h: u8,
    },
}

impl Node {
    /// Appends the word of the node and its indices, with one space before each.
    pub fn write_text(&self, out: &mut Vec<u8>) -> Result<(), AllocError>
        ensures ok { OnOk result (out.new.items ≡ out.old.items ++ node_text self.now) }
        ensures err { OnErr result (BeginsWith (node_text self.now) out.old.items out.new.items) }
    {
        out.extend_from_slice(self.word().as_bytes())?;
        self.write_indices(out)
    }

    /// Appends the indices, with one space before each.
    fn write_indices(&self, out: &mut Vec<u8>) -> Result<(), AllocError>
        ensures ok { OnOk result (out.new.items ≡ out.old.items ++ node_indices self.now) }
        ensures err { OnErr result
            (BeginsWith (node_indices self.now) out.old.items out.new.items) }
    {
        match self {
            Node::N => Ok(()),
            Node::K { i } | Node::M { i } => write_spaced(&[*i], out),
            Node::Poly { j } => write_spaced(&[*j], out),
            Node::Linear { r } => write_signed(*r, out),
            Node::Quadratic { s, t } => {
                write_signed(*s, out)?;
                write_signed(*t, out)
            }
            Node::U { i, r } | Node::Prow { i, r } => write_spaced(&[*i, *r], out),
            Node::Qrow { r, i } => write_spaced(&[*r, *i], out),
            Node::Rec { i, j } | Node::Pq { i, j } | Node::Absolute { i, j } => {
                write_spaced(&[*i, *j], out)
            }
            Node::P { h, i, j } => write_spaced(&[*h, *i, *j], out),
            Node::Krein { i, j, h } | Node::Sign { i, j, h } => { write_spaced(&[*i, *j, *h], out) }
            Node::Kprod { i, j, r } => write_spaced(&[*i, *j, *r], out),
            Node::Eq { u, v, w, a, x, y } => write_spaced(&[*u, *v, *w, *a, *x, *y], out),
            Node::Keq { u, v, w, i, j, h } => write_spaced(&[*u, *v, *w, *i, *j, *h], out),
        }
    }

    fn word(&self) -> &'static str
        ensures { result.now ≡ node_word self.now }
    {
        match self {
            Node::K { .. } => "k",
            Node::N => "n",
            Node::P { .. } => "p",
            Node::Poly { .. } => "poly",
            Node::Linear { .. } => "linear",
            Node::Quadratic { .. } => "quadratic",
            Node::U { .. } => "u",
            Node::M { .. } => "m",
            Node::Prow { .. } => "prow",
            Node::Qrow { .. } => "qrow",
            Node::Rec { .. } => "rec",
            Node::Pq { .. } => "pq",
            Node::Krein { .. } => "krein",
            Node::Kprod { .. } => "kprod",
            Node::Sign { .. } => "sign",
            Node::Absolute { .. } => "absolute",
            Node::Eq { .. } => "eq",
            Node::Keq { .. } => "keq",
        }
    }
}

/// Appends a space and the number.
fn write_signed(number: i32, out: &mut Vec<u8>) -> Result<(), AllocError>
    ensures ok { OnOk result (out.new.items ≡ out.old.items ++ 32 ∷ signed_decimal number) }
    ensures err { OnErr result
        (BeginsWith (32 ∷ signed_decimal number) out.old.items out.new.items) }
{
    out.push(b' ')?;
    out.extend_from_slice(Buffer::new().format(number).as_bytes())
}
