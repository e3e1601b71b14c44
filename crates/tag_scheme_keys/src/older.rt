//! The EPCs of GSRN-96 and GDTI-96 whose keys have the digits of those of GSRNP-96 and SGCN-96.

ghost use Rattle.std.specs.Prelude.{◌≡◌, ◌≢◌};
ghost use Rattle.tag_epc.specs.declared.epc.Parts.{Parts};
ghost use Rattle.tag_epc.specs.declared.epc.Parts.TheVariants.{Partitioned};
ghost use Rattle.tag_epc.specs.declared.kind.Kind.TheVariants.{Gdti, Gid, Gsrn};
ghost use Rattle.tag_epc.specs.LawfulWord.{kind_of_parts};
ghost use Rattle.tag_schemes.specs.LawfulWord.{IsLawful};
ghost use Rattle.tag_schemes.specs.declared.scheme.Scheme.TheVariants.{Gsrnp, Sgcn};
ghost use Rattle.tag_scheme_keys.specs.KeyFaults.{older_start};

use tag_epc::{Epc, Kind, Parts};
use tag_keys::Spelling;
use tag_schemes::{Numbers, Scheme};

/// What the text of the key of a GSRN-96 begins with.
pub(crate) fn service_start(spelling: Spelling) -> &'static str
    ensures { result.now ≡ older_start spelling Gsrn }
{
    match spelling {
        Spelling::Element => "(8018)",
        Spelling::Link => "https://id.gs1.org/8018/",
        Spelling::Named => "gsrn ",
    }
}

/// What the text of the key of a GDTI-96 begins with.
pub(crate) fn document_start(spelling: Spelling) -> &'static str
    ensures { result.now ≡ older_start spelling Gdti }
{
    match spelling {
        Spelling::Element => "(253)",
        Spelling::Link => "https://id.gs1.org/253/",
        Spelling::Named => "gdti ",
    }
}

/// The GSRN-96 with the numbers of a GSRNP-96.
pub(crate) fn service(epc: Numbers) -> Epc
    requires lawful { IsLawful epc }
    requires scheme { epc.scheme ≡ Gsrnp }
    ensures { result ≡ Partitioned Gsrn epc.filter epc.company_digits epc.company epc.reference 0 }
{
    Epc::of_parts(Parts::Partitioned {
        kind: Kind::Gsrn,
        filter: epc.filter,
        company_digits: epc.company_digits,
        company: epc.company,
        reference: epc.reference,
        last: 0,
    })
}

/// The GDTI-96 with the numbers of an SGCN-96.
pub(crate) fn document(epc: Numbers) -> Epc
    requires lawful { IsLawful epc }
    requires scheme { epc.scheme ≡ Sgcn }
    ensures { result ≡ Partitioned Gdti epc.filter epc.company_digits epc.company
        epc.reference epc.last }
{
    Epc::of_parts(Parts::Partitioned {
        kind: Kind::Gdti,
        filter: epc.filter,
        company_digits: epc.company_digits,
        company: epc.company,
        reference: epc.reference,
        last: epc.last,
    })
}

/// The numbers of a scheme's EPC that are those of parts with a company prefix.
pub(crate) fn numbers_in(parts: Parts, scheme: Scheme) -> Numbers
    requires { kind_of_parts parts ≢ Gid }
    ensures scheme { result.scheme ≡ scheme }
    ensures parts { parts ≡ Partitioned (kind_of_parts parts) result.filter result.company_digits
        result.company result.reference result.last }
{
    match parts {
        Parts::Partitioned {
            filter,
            company_digits,
            company,
            reference,
            last,
            ..
        } => Numbers {
            scheme,
            filter,
            company_digits,
            company,
            reference,
            last,
        },
        Parts::General { .. } => unreachable!(),
    }
}
