// The table of the boundaries as S05rev prints it: a row for each, in the order of the document. 3ef stands beside it (`temperatures`).
ghost use Rattle.std.specs.Prelude.{◌≡◌};
ghost use Rattle.boundaries.specs.Boundary.{row_at};
ghost use Rattle.boundaries.specs.Raw.{place_of, row_of};

// A term: the exponent I and the coefficient n.
#[derive(Clone, Copy)]
pub struct Term(pub i32, pub f64);

// A row: whether its sum is in ln p (equation 2) or in p (equation 1), and its terms, of which some rows have no fifth.
// Kept: the fifth by itself. With a slice of four or five terms (tried) a band's boundaries take three quarters more instructions.
#[derive(Clone, Copy)]
pub struct Row {
    pub ln: bool,
    pub terms: [Term; 4],
    pub fifth: Option<Term>,
}

// A row's place in the table. It is no row, which would be handed over by address, so that the compiler knows the row wherever one is asked for, and its
// constants go there; other crates ask by a boundary's name.
// Kept: `Boundary` without 3ef, which has no row: so no walk asks whether there is one.
#[derive(Clone, Copy, Debug, PartialEq, Eq)]
pub enum Place {
    Ab,
    Cd,
    Gh,
    Ij,
    Jk,
    Mn,
    Op,
    Qu,
    Rx,
    Uv,
    Wx,
}

// The row at a place. Beside each its equation, the table that prints it, and a printed value.
pub fn row_at(k: Place) -> Row
    ensures { row_of result ≡ row_at (place_of k) }
{
    match k {
        // 3ab: equation 2; 693.0341408 K at 40 MPa
        Place::Ab => Row {
            ln: true,
            terms: [
                Term(0, 0.154793642129415e4),
                Term(1, -0.187661219490113e3),
                Term(2, 0.213144632222113e2),
                Term(-1, -0.191887498864292e4),
            ],
            fifth: Some(Term(-2, 0.918419702359447e3)),
        },
        // 3cd: equation 1; 649.3659208 K at 25 MPa
        Place::Cd => Row {
            ln: false,
            terms: [
                Term(0, 0.585276966696349e3),
                Term(1, 0.278233532206915e1),
                Term(2, -0.127283549295878e-1),
                Term(3, 0.159090746562729e-3),
            ],
            fifth: None,
        },
        // 3gh: equation 1; 649.8873759 K at 23 MPa
        Place::Gh => Row {
            ln: false,
            terms: [
                Term(0, -0.249284240900418e5),
                Term(1, 0.428143584791546e4),
                Term(2, -0.269029173140130e3),
                Term(3, 0.751608051114157e1),
            ],
            fifth: Some(Term(4, -0.787105249910383e-1)),
        },
        // 3ij: equation 1; 651.5778091 K at 23 MPa
        Place::Ij => Row {
            ln: false,
            terms: [
                Term(0, 0.584814781649163e3),
                Term(1, -0.616179320924617),
                Term(2, 0.260763050899562),
                Term(3, -0.587071076864459e-2),
            ],
            fifth: Some(Term(4, 0.515308185433082e-4)),
        },
        // 3jk: equation 1; 655.8338344 K at 23 MPa
        Place::Jk => Row {
            ln: false,
            terms: [
                Term(0, 0.617229772068439e3),
                Term(1, -0.770600270141675e1),
                Term(2, 0.697072596851896),
                Term(3, -0.157391839848015e-1),
            ],
            fifth: Some(Term(4, 0.137897492684194e-3)),
        },
        // 3mn: equation 1; 649.6054133 K at 22.8 MPa
        Place::Mn => Row {
            ln: false,
            terms: [
                Term(0, 0.535339483742384e3),
                Term(1, 0.761978122720128e1),
                Term(2, -0.158365725441648),
                Term(3, 0.192871054508108e-2),
            ],
            fifth: None,
        },
        // 3op: equation 2; 650.0106943 K at 22.8 MPa
        Place::Op => Row {
            ln: true,
            terms: [
                Term(0, 0.969461372400213e3),
                Term(1, -0.332500170441278e3),
                Term(2, 0.642859598466067e2),
                Term(-1, 0.773845935768222e3),
            ],
            fifth: Some(Term(-2, -0.152313732937084e4)),
        },
        // 3qu: equation 1; 645.6355027 K at 22 MPa
        Place::Qu => Row {
            ln: false,
            terms: [
                Term(0, 0.565603648239126e3),
                Term(1, 0.529062258221222e1),
                Term(2, -0.102020639611016),
                Term(3, 0.122240301070145e-2),
            ],
            fifth: None,
        },
        // 3rx: equation 1; 648.2622754 K at 22 MPa
        Place::Rx => Row {
            ln: false,
            terms: [
                Term(0, 0.584561202520006e3),
                Term(1, -0.102961025163669e1),
                Term(2, 0.243293362700452),
                Term(3, -0.294905044740799e-2),
            ],
            fifth: None,
        },
        // 3uv: equation 1; 647.7996121 K at 22.3 MPa
        Place::Uv => Row {
            ln: false,
            terms: [
                Term(0, 0.528199646263062e3),
                Term(1, 0.890579602135307e1),
                Term(2, -0.222814134903755),
                Term(3, 0.286791682263697e-2),
            ],
            fifth: None,
        },
        // 3wx: equation 2; 648.2049480 K at 22.3 MPa
        Place::Wx => Row {
            ln: true,
            terms: [
                Term(0, 0.728052609145380e1),
                Term(1, 0.973505869861952e2),
                Term(2, 0.147370491183191e2),
                Term(-1, 0.329196213998375e3),
            ],
            fifth: Some(Term(-2, 0.873371668682417e3)),
        },
    }
}
