//! Laws of reading and printing annotations: a printed one is read back, and one that is read is kept.

ghost use Rattle.std.specs.Prelude.{◌≡◌, ℕ, true, List, Ok};
ghost use Rattle.ir_annotation.specs.declared.meaning.Annotation.{Annotation};
ghost use Rattle.ir_annotation.specs.declared.meaning.AnnotationLine.{AnnotationLine};
ghost use Rattle.ir_annotation.specs.Lines.{annotation_of};
ghost use Rattle.ir_annotation.specs.Annotations.{IsKeptAnnotation, annotation_words, annotation_on, read_as};

/// The words that print an annotation are read back as the same annotation, on the line that they stand on.
pub fn printed_annotation_is_read_back()
    ensures { (line : ℕ) (a : Annotation) → IsKeptAnnotation a → annotation_of (annotation_words a) line ≡ Ok (read_as (annotation_on line a)) }
{}

/// An annotation that is read and within its limits has canonical forms, and names and numbers within their limits.
pub fn read_annotation_is_kept()
    ensures { (line : ℕ) (words : List (List ℕ)) (found : AnnotationLine) → annotation_of words line ≡ Ok found
        → found.is_within_limits ≡ true → IsKeptAnnotation found.annotation }
{}
