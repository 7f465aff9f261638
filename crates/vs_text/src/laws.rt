// Laws of the file form of a text. They do nothing: their contracts are the laws.
ghost use Rattle.std.specs.Prelude.{◌≡◌, ◌++◌, ◌∷◌, [], ℕ, List, map, true};
ghost use Rattle.vs_text.specs.Text.{IsLine, IsText, file_of, lines_of};
ghost use Rattle.vs_text.specs.Documents.{document_of, file_in, format_of, keeps_format, last_byte, lines_in};
ghost use Rattle.vs_text.specs.declared.format.Format.{Format};
ghost use Rattle.vs_text.specs.declared.format.Format.TheVariants.{Dos, Unix};

/// What is written is read back with its text and its format, unless a dos text has no line, or a unix text has lines which all end in
/// byte 13.
pub fn reads_what_was_written()
    ensures { (format : Format) (text : List (List ℕ)) → IsText text → keeps_format format text ≡ true
        → document_of (file_in format text) ≡ record { text = text; format = format } }
{}

/// What is read is written back byte for byte, if its last line ended.
pub fn writes_what_was_read()
    ensures { (bytes : List ℕ) → last_byte 10 bytes ≡ 10 → file_in (document_of bytes).format (document_of bytes).text ≡ bytes }
{}

/// In a dos file each line that ended has a byte 13 as its last byte, and loses it. In a unix file it keeps all bytes.
pub fn ended_lines()
    ensures dos { (ended : List (List ℕ)) (last : List ℕ) → IsText ended → IsLine last → format_of (file_of ended ++ last) ≡ Dos
        → (text : List (List ℕ)) × (ended ≡ map (λ line. line ++ 13 ∷ []) text) × (lines_in Dos (file_of ended ++ last) ≡ text ++ lines_of last) }
    ensures unix { (ended : List (List ℕ)) (last : List ℕ) → IsText ended → lines_in Unix (file_of ended ++ last) ≡ ended ++ lines_of last }
{}
