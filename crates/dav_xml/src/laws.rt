//! Laws of the definitions.
ghost use Rattle.std.specs.Prelude.{◌≡◌, ◌++◌, ◌≤◌, ◌∷◌, [], false, suc, ℕ, codes, length, List, None, Ok, Some};
ghost use Rattle.dav_xml.specs.Token.{Markup};
ghost use Rattle.dav_xml.specs.Markup.{tokens_of};
ghost use Rattle.dav_xml.specs.Spelling.{AreSpelled, spellings};
ghost use Rattle.dav_core.specs.Element.{ElementTree, ElementTrees, element};
ghost use Rattle.dav_xml.specs.Nesting.{nested};
ghost use Rattle.dav_xml.specs.Flat.{flat, nested_tokens, IsRaw};
ghost use Rattle.dav_xml.specs.Front.{raw_document};
ghost use Rattle.dav_xml.specs.Written.{declaration, document_of, written};
ghost use Rattle.dav_xml.specs.Namespaces.{document};
ghost use Rattle.dav_xml.specs.Scopes.{Scope, uri_of};
ghost use Rattle.dav_xml.specs.Expanded.{AllMean, IsExpanded, IsFew, IsPlain, Means};
ghost use Rattle.dav_xml.specs.Legal.{HasLegal, HasLegalTexts};
ghost use Rattle.dav_xml.specs.Prefixed.{OthersAreKept, PrefixedIsSendable};
ghost use Rattle.dav_xml.specs.ByChild.{DocumentIsOfChildren};
ghost use Rattle.dav_xml.specs.Sendable.{ExpandedIsSendable, ReadIsSendable, SendableIsRead};

/// Pieces of markup that are written are read again.
pub fn spelled_is_read()
    ensures { (ts : List Markup) → AreSpelled ts → tokens_of (spellings ts) ≡ Ok ts }
{}

/// The pieces of a tree of at most 64 levels are nested to that tree again.
pub fn flat_is_nested()
    ensures { (t : ElementTree) → IsRaw 64 t → nested (flat t) ≡ Ok t }
{}

/// Pieces that are nested give a tree of at most 64 levels, without an empty text or a text behind another.
pub fn nested_is_raw()
    ensures { (ts : List Markup) (t : ElementTree) → nested ts ≡ Ok t → IsRaw 64 t }
{}

/// Pieces that are nested to a tree, and the tree's own pieces, are nested to the same.
pub fn nested_is_flat()
    ensures { (ts : List Markup) (t : ElementTree) → nested ts ≡ Ok t
        → nested (flat t) ≡ nested ts }
{}

/// A raw tree that is written is read again.
pub fn raw_is_read()
    ensures { (t : ElementTree) → IsRaw 64 t → AreSpelled (flat t)
        → nested_tokens (spellings (flat t)) ≡ Ok t }
{}

/// What is written of a tree of names as they stand, of legal characters, at most 64 levels and at most 1 MiB in all, is read
/// again through all that comes before the namespaces.
pub fn written_is_read_raw()
    ensures { (t : ElementTree) → IsRaw 64 t → HasLegal t
        → length (declaration ++ spellings (flat t)) ≤ 0x10_0000
        → raw_document (declaration ++ spellings (flat t)) ≡ Ok t }
{}

/// The document of a root with children is what stands before them, each of them in order, and what stands after them; so it may be
/// written child by child.
#[tactic(auto, using(crate::proofs::ByChild::document_is_of_children))]
pub fn document_is_of_children()
    ensures { DocumentIsOfChildren }
{}

/// What is written of a tree of at most 64 levels is read again as the tree that it means, where each element has at most 256
/// attributes and is within at most 256 declarations, and the whole has at most 1 MiB.
pub fn written_is_read()
    ensures { (t u : ElementTree) → Means 64 [] t u → IsFew [] (written [] t)
        → length (document_of t) ≤ 0x10_0000 → document (document_of t) ≡ Ok u }
{}

/// A tree with expanded names means itself, wherever it is sent: so what is written of it is read again as the same tree.
pub fn expanded_means_itself()
    ensures { (n : ℕ) (scope : Scope) (t : ElementTree) → IsExpanded n t → Means n scope t t }
{}

/// An element with the prefix `D`, without a namespace and attributes, is read with the namespace `DAV:` where that is declared.
pub fn dav_element_means()
    ensures { (n : ℕ) (scope : Scope) (name : List ℕ) (children meant : ElementTrees) → IsPlain name
        → uri_of (codes "D") scope ≡ Some (codes "DAV:") → AllMean n false scope children meant
        → Means (suc n) scope (element name (Some (codes "D")) None [] children)
        (element name (Some (codes "D")) (Some (codes "DAV:")) [] meant) }
{}

/// So is the outermost element of a reply, which declares the prefix.
pub fn dav_root_means()
    ensures { (n : ℕ) (name : List ℕ) (children meant : ElementTrees) → IsPlain name
        → AllMean n false ((codes "D", codes "DAV:") ∷ []) children meant
        → Means (suc n) [] (element name (Some (codes "D")) None
        ((codes "xmlns:D", codes "DAV:") ∷ []) children)
        (element name (Some (codes "D")) (Some (codes "DAV:")) [] meant) }
{}

/// What is read has at most 64 levels and expanded names, and is of legal characters.
pub fn read_is_expanded()
    ensures { (bytes : List ℕ) (t : ElementTree) → document bytes ≡ Ok t → IsExpanded 64 t }
{}

/// The namespaces, values and texts of what is read are of legal characters, those that references stand for too.
pub fn read_is_legal()
    ensures { (bytes : List ℕ) (t : ElementTree) → document bytes ≡ Ok t → HasLegalTexts t }
{}

/// What was read is written so that the same is read again, where each element that is written has at most 256 attributes and is
/// within at most 256 declarations, and the whole has at most 1 MiB.
pub fn read_is_read_again()
    ensures { (bytes : List ℕ) (t : ElementTree) → document bytes ≡ Ok t → IsFew [] (written [] t)
        → length (document_of t) ≤ 0x10_0000 → document (document_of t) ≡ Ok t }
{}

/// What is written of a tree that may be sent is read again as the tree that it means, where it has at most 64 levels, each element
/// that is written has at most 256 attributes and is within at most 256 declarations, and the whole has at most 1 MiB.
#[tactic(auto, using(crate::proofs::SentTrees::sendable_is_read))]
pub fn sendable_is_read()
    ensures { SendableIsRead }
{}

/// A tree with expanded names may be sent, and so may each tree that is read.
#[tactic(auto, using(crate::proofs::SentTrees::expanded_is_sendable, crate::proofs::SentTrees::read_is_sendable))]
pub fn expanded_is_sendable()
    ensures expanded { ExpandedIsSendable }
    ensures read { ReadIsSendable }
{}

/// An element that may be sent may be sent under another prefix, where that is known for a namespace.
#[tactic(auto, using(crate::proofs::SentPrefixed::prefixed_is_sendable))]
pub fn prefixed_is_sendable()
    ensures { PrefixedIsSendable }
{}

/// An element that was read keeps under another prefix each attribute that is no declaration, in order and with its value, but for
/// those under that prefix.
#[tactic(auto, using(crate::proofs::PrefixedKept::others_are_kept))]
pub fn others_are_kept()
    ensures { OthersAreKept }
{}
