// Laws of the spelling.
ghost use Rattle.std.specs.Prelude.{ℕ};
ghost use Rattle.e3_types.specs.Spelling.{spell_record};
ghost use Rattle.e3_codec.specs.Claims.{OnePlace, OneSpelling, PrefixFree, SpellingsAreRead};
ghost use Rattle.e3_codec.specs.Fields.{CanBeReadBack};
ghost use Rattle.e3_codec.specs.Format.{IsFormat};
ghost use Rattle.e3_codec.specs.Reading.{record_at};

/// The reader of a record and its spelling fit: a record that is read from the front of bytes can be read back and is
/// spelled by the bytes that were taken, and one that can be read back is read from its spelling, whatever follows.
pub fn records_are_a_format()
    ensures { (site : ℕ) → IsFormat spell_record (CanBeReadBack site) (record_at site) }
{}

/// Of records that have a spelling and whose operations all have keys of one site: no record's spelling begins another's,
/// and no two lists have one spelling, also where a transaction is none. In the spelling of a list that can be read back a
/// record begins at each place that is not its end. Bytes have one first place at most where no record begins.
pub fn each_list_has_one_spelling()
    ensures free { PrefixFree }
    ensures one { OneSpelling }
    ensures read { SpellingsAreRead }
    ensures place { OnePlace }
{}
