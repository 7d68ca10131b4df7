//! Laws of the definitions, each the contract of a function that does nothing.

ghost use Rattle.std.specs.Prelude.{◌≡◌, ℕ, ◌+◌, ◌*◌, ◌^◌, ◌<◌, ◌≤◌, ◌⊎◌, Bool, true, false, List, [], ◌∷◌, ◌++◌, length, map, slice_get, slice_index, slice_set, replicate, Option, Some, IsSome, Ok, bit_xor};
ghost use Rattle.std.specs.List.{AllByRecursion};
ghost use Rattle.capnp_model.specs.Sections.{bits_at, with_bits, numbers_in, number_of, words_of, section_of};
ghost use Rattle.capnp_model.specs.Segments.{Segments, Place, root, word_at, words_at};
ghost use Rattle.capnp_model.specs.Trees.{Tree, structure, plain_list, Trees, tree_count, with_child, widened, depth, has_capability};
ghost use Rattle.capnp_model.specs.Trimming.{trim};
ghost use Rattle.capnp_model.specs.Traversal.{tree_at, cost_at, each, cost_each};
ghost use Rattle.capnp_model.specs.Means.{Means};
ghost use Rattle.capnp_model.specs.Coverage.{from_each, covered, cover, Keeps, Grows};
ghost use Rattle.capnp_model.specs.Faults.{faults_at};
ghost use Rattle.capnp_model.specs.Visits.{Visit, visits, visits_cost, faults_among, pointers_of, each_pointers_of};
ghost use Rattle.capnp_model.specs.Encoding.{body, canonical_words};
ghost use Rattle.capnp_model.specs.Canonical.{is_canonical_at, is_canonical_message};
ghost use Rattle.capnp_model.specs.Sizes.{object_words, capability_count};
ghost use Rattle.capnp_model.specs.Fits.{Fits, FitEach};
ghost use Rattle.capnp_model.specs.Packing.{packed, unpacked};
ghost use Rattle.capnp_model.specs.Messages.{frame_at, packed_at, flat_at, frame, packed_message, within};
ghost use Rattle.capnp_model.specs.Schemas.{struct, Node, Shape, Fields, Body, Schema};
ghost use Rattle.capnp_model.specs.Readings.{Record, Extent, Children, record_of, shape_record, fields_of, body_of, is_active, only_if};
ghost use Rattle.capnp_model.specs.Steps.{target, target_of, entry_of};
ghost use Rattle.capnp_model.specs.Accepted.{IsAccepted, areas_of, schema_of};
ghost use Rattle.capnp_model.specs.Views.{View, SameAll};
ghost use Rattle.capnp_model.specs.Compatible.{IsCompatible};
ghost use Rattle.capnp_model.specs.Projection.{projected};
ghost use Rattle.capnp_model.specs.InKind.{in_kind};
ghost use Rattle.capnp_model.specs.Calls.{blob_tree, Call};
ghost use Rattle.capnp_model.specs.Answers.{Limits, value_within, answer};
ghost use Rattle.capnp_model.specs.Spelling.{AreWords, CanSpell, Frames, Packs};

/// A number written into a data section is read back, and numbers that share no bit with it stay.
pub fn numbers_in_sections()
    ensures same { (at width value section : ℕ) → value < 2 ^ width
        → bits_at at width (with_bits at width value section) ≡ value }
    ensures beside { (at width value section a n : ℕ) → value < 2 ^ width
        → ((at + width ≤ a) ⊎ (a + n ≤ at))
        → bits_at a n (with_bits at width value section) ≡ bits_at a n section }
    ensures within { (at width value section size : ℕ) → value < 2 ^ width → at + width ≤ size
        → section < 2 ^ size → with_bits at width value section < 2 ^ size }
    ensures masked { (n d : ℕ) → bit_xor (bit_xor n d) d ≡ n }
    ensures masked_back { (at width value mask section : ℕ) → value < 2 ^ width → mask < 2 ^ width
        → bit_xor (bits_at at width (with_bits at width (bit_xor value mask) section)) mask
        ≡ value }
{}

/// A section is the one of its words.
pub fn sections_are_words()
    ensures { (n section : ℕ) → section < 2 ^ (64 * n) → section_of (words_of n section) ≡ section }
{}

/// Bits in one word of a section are those of the word, in reading and in writing; after the words
/// there are zeros.
pub fn bits_in_words()
    ensures read { (words : List ℕ) (i j width : ℕ) → i < length words → j + width ≤ 64
        → bits_at (64 * i + j) width (section_of words) ≡ bits_at j width (slice_index words i) }
    ensures behind { (words : List ℕ) (i j width : ℕ) → length words ≤ i
        → bits_at (64 * i + j) width (section_of words) ≡ 0 }
    ensures written { (words : List ℕ) (i j width value : ℕ) → value < 2 ^ width
        → i < length words → j + width ≤ 64 → slice_index words i < 2 ^ 64
        → section_of (slice_set words i (with_bits j width value (slice_index words i)))
        ≡ with_bits (64 * i + j) width value (section_of words) }
{}

/// Numbers side by side in a section are read and written one at a time, from the first on.
pub fn numbers_one_by_one()
    ensures read { (w n s : ℕ)
        → numbers_in w (n + 1) s ≡ numbers_in w n s ++ bits_at (w * n) w s ∷ [] }
    ensures written { (w : ℕ) (xs : List ℕ) (x : ℕ) → x < 2 ^ w
        → number_of w (xs ++ x ∷ []) ≡ with_bits (w * length xs) w x (number_of w xs) }
    ensures zeros { (n : ℕ) → section_of (replicate n 0) ≡ 0 }
{}

/// A value that is read is within the nesting limit, is the same under any other limit that is at
/// least its depth, and fits its spelling.
pub fn values_that_are_read()
    ensures deep { (n : ℕ) (s : Segments) (p : Place) (t : Tree) → tree_at n s p ≡ Some t
        → depth t ≤ n }
    ensures levels { (n m : ℕ) (s : Segments) (p : Place) (t : Tree) → tree_at n s p ≡ Some t
        → depth t ≤ m → tree_at m s p ≡ Some t }
    ensures fits { (n : ℕ) (s : Segments) (p : Place) (t : Tree) → tree_at n s p ≡ Some t → Fits t }
{}

/// The result of reading a value is that of the relation by cases, and the relation has at most one
/// value for a place.
pub fn values_as_a_relation()
    ensures read { (n : ℕ) (s : Segments) (p : Place) (t : Tree) → Means n s p t
        → tree_at n s p ≡ Some t }
    ensures meant { (n : ℕ) (s : Segments) (p : Place) (t : Tree) → tree_at n s p ≡ Some t
        → Means n s p t }
    ensures one { (n m : ℕ) (s : Segments) (p : Place) (t u : Tree) → Means n s p t
        → Means m s p u → t ≡ u }
{}

/// A value is read exactly when it has no fault.
pub fn faults_of_values()
    ensures read { (n : ℕ) (s : Segments) (p : Place) (t : Tree) → tree_at n s p ≡ Some t
        → faults_at n s p ≡ [] }
    ensures none { (n : ℕ) (s : Segments) (p : Place) → faults_at n s p ≡ []
        → IsSome (tree_at n s p) }
{}

/// Segments that keep the words of a value keep the value.
pub fn values_stay_where_their_words_stay()
    ensures by_spans { (n : ℕ) (s u : Segments) (p : Place) (t : Tree)
        → AllByRecursion (Keeps s u) (covered n s p) → tree_at n s p ≡ Some t
        → tree_at n u p ≡ Some t }
    ensures by_grown_words { (n : ℕ) (s u : Segments) (p : Place) (t : Tree) → Grows s u
        → ((q : Place) (w : ℕ) → 0 < cover n s p q → word_at s q ≡ Some w → word_at u q ≡ Some w)
        → tree_at n s p ≡ Some t → tree_at n u p ≡ Some t }
    ensures by_words { (n : ℕ) (s u : Segments) (p : Place) (t : Tree)
        → map length s ≡ map length u
        → ((q : Place) → 0 < cover n s p q → word_at u q ≡ word_at s q) → tree_at n s p ≡ Some t
        → tree_at n u p ≡ Some t }
{}

/// Trimming twice is trimming once; a trimmed value fits and is not deeper.
pub fn trimmed_values()
    ensures again { (t : Tree) → trim (trim t) ≡ trim t }
    ensures fits { (t : Tree) → Fits t → Fits (trim t) }
    ensures depth { (t : Tree) → depth (trim t) ≤ depth t }
{}

/// Values with another child, widened structs, structs of words, and texts fit.
pub fn fitting_values()
    ensures child { (ts : Trees) (i : ℕ) (t : Tree) → FitEach ts → Fits t
        → FitEach (with_child ts i t) }
    ensures widened { (words pointers : ℕ) (t : Tree) → words < 2 ^ 16 → pointers < 2 ^ 16
        → Fits t → Fits (widened words pointers t) }
    ensures words { (ws : List ℕ) (kids : Trees) → length ws < 2 ^ 16 → tree_count kids < 2 ^ 16
        → FitEach kids → Fits (structure (length ws) (section_of ws) kids) }
    ensures bytes { (bs : List ℕ) → length bs < 2 ^ 29 → Fits (blob_tree bs) }
    ensures zeros { (n : ℕ) → n < 2 ^ 29 → Fits (plain_list 2 n 0) }
{}

/// The words of a value mean the value, also if the first segment continues after them; so equal
/// words are those of equal values.
pub fn words_mean_their_value()
    ensures means { (t : Tree) (n : ℕ) → Fits t → depth t ≤ n
        → length (canonical_words t) ≤ 2 ^ 29 → tree_at n (canonical_words t ∷ []) root ≡ Some t }
    ensures first { (t : Tree) (n : ℕ) (s : Segments) (more : List ℕ) → Fits t → depth t ≤ n
        → length (canonical_words t) ≤ 2 ^ 29 → slice_get s 0 ≡ Some (canonical_words t ++ more)
        → tree_at n s root ≡ Some t }
    ensures equal { (t u : Tree) → Fits t → Fits u → length (canonical_words t) ≤ 2 ^ 29
        → canonical_words t ≡ canonical_words u → t ≡ u }
    ensures words { (t : Tree) → Fits t → length (canonical_words t) ≤ 2 ^ 29
        → AreWords (canonical_words t) }
{}

/// The objects of a value have no more words than following its pointer costs, and the canonical
/// words of the trimmed value at most one more, that of the root.
pub fn words_within_costs()
    ensures whole { (n : ℕ) (s : Segments) (p : Place) (t : Tree) → tree_at n s p ≡ Some t
        → length (body t) ≤ cost_at n s p }
    ensures trimmed { (n : ℕ) (s : Segments) (p : Place) (t : Tree) → tree_at n s p ≡ Some t
        → length (canonical_words (trim t)) ≤ cost_at n s p + 1 }
{}

/// The canonical words of a value mean the trimmed value, are equal exactly for equal trimmed
/// values, and are their own canonical words.
pub fn canonical_messages()
    ensures means { (n : ℕ) (s : Segments) (p : Place) (t : Tree) → tree_at n s p ≡ Some t
        → cost_at n s p < 2 ^ 29 → tree_at n (canonical_words (trim t) ∷ []) root ≡ Some (trim t) }
    ensures equal { (n : ℕ) (s u : Segments) (p q : Place) (t v : Tree) → tree_at n s p ≡ Some t
        → tree_at n u q ≡ Some v → cost_at n s p < 2 ^ 29
        → canonical_words (trim t) ≡ canonical_words (trim v) → trim t ≡ trim v }
    ensures same { (t u : Tree) → trim t ≡ trim u
        → canonical_words (trim t) ≡ canonical_words (trim u) }
    ensures again { (n : ℕ) (s : Segments) (p : Place) (t u : Tree) → tree_at n s p ≡ Some t
        → cost_at n s p < 2 ^ 29 → tree_at n (canonical_words (trim t) ∷ []) root ≡ Some u
        → canonical_words (trim u) ≡ canonical_words (trim t) }
{}

/// The test for canonical words at a place holds exactly when the words are there.
pub fn canonical_tests_at_places()
    ensures holds { (n : ℕ) (s : Segments) (p : Place) → is_canonical_at n s p ≡ true
        → (t : Tree) × (tree_at n s p ≡ Some t) × (has_capability t ≡ false)
        × (words_at s p (length (canonical_words (trim t))) ≡ Some (canonical_words (trim t))) }
    ensures stands { (n : ℕ) (s : Segments) (p : Place) (t : Tree) → tree_at n s p ≡ Some t
        → has_capability t ≡ false
        → words_at s p (length (canonical_words (trim t))) ≡ Some (canonical_words (trim t))
        → is_canonical_at n s p ≡ true }
    ensures begins { (n : ℕ) (s : Segments) (t : Tree) (more : List ℕ) → Fits t → depth t ≤ n
        → length (canonical_words t) ≤ 2 ^ 29 → has_capability t ≡ false → trim t ≡ t
        → slice_get s 0 ≡ Some (canonical_words t ++ more) → is_canonical_at n s root ≡ true }
{}

/// The test for a canonical message holds exactly when the canonical words of its value are its
/// only segment, so it holds for each canonical copy.
pub fn canonical_tests()
    ensures holds_of { (n : ℕ) (s : Segments) → is_canonical_message n s ≡ true → (t : Tree)
        × (tree_at n s root ≡ Some t) × (has_capability t ≡ false)
        × (s ≡ canonical_words (trim t) ∷ []) }
    ensures message { (n : ℕ) (s : Segments) (t : Tree) → tree_at n s root ≡ Some t
        → has_capability t ≡ false → s ≡ canonical_words (trim t) ∷ []
        → is_canonical_message n s ≡ true }
    ensures copy { (n : ℕ) (s : Segments) (p : Place) (t : Tree) → tree_at n s p ≡ Some t
        → cost_at n s p < 2 ^ 29 → has_capability t ≡ false
        → is_canonical_message n (canonical_words (trim t) ∷ []) ≡ true }
{}

/// The words of a value's objects are those that its pointer leads to, and it has a capability
/// exactly when some are counted.
pub fn sizes_of_values()
    ensures words { (t : Tree) → object_words t ≡ length (body t) }
    ensures none { (t : Tree) → capability_count t ≡ 0 → has_capability t ≡ false }
    ensures no_count { (t : Tree) → has_capability t ≡ false → capability_count t ≡ 0 }
{}

/// Unpacking what is packed gives the words, and takes exactly their bytes.
pub fn packed_words()
    ensures { (ws rest : List ℕ) → AreWords ws
        → unpacked (length ws) (packed ws ++ rest) ≡ Ok (ws, rest) }
{}

/// A written message is read, whatever follows it, and is a text of its segments; canonical words
/// can be written.
pub fn written_messages()
    ensures framed { (limit : Option ℕ) (s : Segments) (rest : List ℕ) → CanSpell limit s
        → frame_at limit (frame s ++ rest) ≡ Ok (s, rest) }
    ensures packed { (limit : Option ℕ) (s : Segments) (rest : List ℕ) → CanSpell limit s
        → packed_at limit (packed_message s ++ rest) ≡ Ok (s, rest) }
    ensures canonical { (limit : Option ℕ) (t : Tree) → Fits t
        → length (canonical_words t) ≤ 2 ^ 29 → within (length (canonical_words t)) limit ≡ true
        → CanSpell limit (canonical_words t ∷ []) }
    ensures framed_text { (limit : Option ℕ) (s : Segments) → CanSpell limit s
        → Frames limit (frame s) s }
    ensures packed_text { (limit : Option ℕ) (s : Segments) → CanSpell limit s
        → Packs limit (packed_message s) s }
{}

/// Bytes that begin with a readable message begin with its text, and bytes after a text change
/// nothing.
pub fn texts_of_messages()
    ensures framed_front { (limit : Option ℕ) (b : List ℕ) (s : Segments) (rest : List ℕ)
        → frame_at limit b ≡ Ok (s, rest) → (x : List ℕ) × (b ≡ x ++ rest) × Frames limit x s }
    ensures packed_front { (limit : Option ℕ) (b : List ℕ) (s : Segments) (rest : List ℕ)
        → packed_at limit b ≡ Ok (s, rest) → (x : List ℕ) × (b ≡ x ++ rest) × Packs limit x s }
    ensures framed_more { (limit : Option ℕ) (b : List ℕ) (r : Segments × List ℕ) (x : List ℕ)
        → frame_at limit b ≡ Ok r → frame_at limit (b ++ x) ≡ Ok (r.0, r.1 ++ x) }
    ensures packed_more { (limit : Option ℕ) (b : List ℕ) (r : Segments × List ℕ) (x : List ℕ)
        → packed_at limit b ≡ Ok r → packed_at limit (b ++ x) ≡ Ok (r.0, r.1 ++ x) }
{}

/// A slice is read as a stream is.
pub fn texts_in_slices()
    ensures in_slice { (limit : Option ℕ) (b : List ℕ) (r : Segments × List ℕ)
        → frame_at limit b ≡ Ok r → flat_at limit b ≡ Ok r }
    ensures of_slice { (limit : Option ℕ) (b : List ℕ) (r : Segments × List ℕ)
        → flat_at limit b ≡ Ok r → frame_at limit b ≡ Ok r }
{}

/// No text of a message begins another one.
pub fn texts_by_their_fronts()
    ensures framed { (limit : Option ℕ) (b c : List ℕ) (s u : Segments) (x y : List ℕ)
        → Frames limit b s → Frames limit c u → b ++ x ≡ c ++ y → (b ≡ c) × (s ≡ u) }
    ensures packed { (limit : Option ℕ) (b c : List ℕ) (s u : Segments) (x y : List ℕ)
        → Packs limit b s → Packs limit c u → b ++ x ≡ c ++ y → (b ≡ c) × (s ≡ u) }
{}

/// The record of a struct depends on nothing but the bits and the pointers of its schema's slots
/// and discriminants.
pub fn records_of_own_bits()
    ensures { (g : Shape) (v w : View) → SameAll (areas_of g) v w
        → shape_record g v.size v.section v.kids ≡ shape_record g w.size w.section w.kids }
{}

/// The field of a name reads as its slot does, if no other member of its union is active.
pub fn fields_by_name()
    ensures { (n : List ℕ) (fs : Fields) (member : Option ℕ) (body : Body) (active : Option ℕ)
        (size : Extent) (section : ℕ) (kids : Children) → target_of n fs ≡ target member body
        → entry_of n (fields_of fs active size section kids)
        ≡ only_if (is_active member active) (body_of body size section kids) }
{}

/// The record under an older schema is the older view of the record under a compatible newer one.
pub fn older_records()
    ensures { (nodes newer_nodes : List Node) (older newer : ℕ) (t : Tree) → IsAccepted nodes
        → IsCompatible (schema_of nodes) (schema_of newer_nodes) older newer
        → record_of (schema_of nodes) older t
        ≡ projected (schema_of nodes) older (record_of (schema_of newer_nodes) newer t) }
{}

/// A trimmed value has the record of the value, if lists are in kind.
pub fn records_of_trimmed_values()
    ensures { (s : Schema) (id : ℕ) (t : Tree) → in_kind s t (struct id) ≡ true
        → record_of s id (trim t) ≡ record_of s id t }
{}

/// Messages within the limits with equal trimmed values have equal answers.
pub fn answers_to_equal_values()
    ensures { (s : Schema) (quoted : List ℕ → List ℕ) (id : ℕ) (calls : List Call)
        (limits : Limits) (a b : Segments) (t u : Tree) → value_within limits a ≡ Some t
        → value_within limits b ≡ Some u → trim t ≡ trim u
        → answer s quoted id calls limits a ≡ answer s quoted id calls limits b }
{}

/// Every schema is compatible with itself.
pub fn compatible_with_itself()
    ensures { (nodes : List Node) (id : ℕ)
        → IsCompatible (schema_of nodes) (schema_of nodes) id id }
{}

/// Compatibility is transitive along versions, if the newest schema is accepted.
pub fn compatible_along_versions()
    ensures { (oldest middle : Schema) (nodes : List Node) (x y z : ℕ) → IsAccepted nodes
        → IsCompatible oldest middle x y → IsCompatible middle (schema_of nodes) y z
        → IsCompatible oldest (schema_of nodes) x z }
{}

/// Along versions the oldest view of a record is the oldest view of its middle view.
pub fn views_along_versions()
    ensures { (a b c : List Node) (x y z : ℕ) (t : Tree) → IsAccepted a → IsAccepted b
        → IsAccepted c → IsCompatible (schema_of a) (schema_of b) x y
        → IsCompatible (schema_of b) (schema_of c) y z
        → projected (schema_of a) x (projected (schema_of b) y (record_of (schema_of c) z t))
        ≡ projected (schema_of a) x (record_of (schema_of c) z t) }
{}

/// A walk over a value without a fault costs what following its pointers costs, and follows exactly
/// its pointers, nulls included. The faults of any value are those that a walk meets.
pub fn values_on_walks()
    ensures cost { (n : ℕ) (s : Segments) (p : Place) (t : Tree) → tree_at n s p ≡ Some t
        → visits_cost (visits n s p) ≡ Some (cost_at n s p) }
    ensures count { (n : ℕ) (s : Segments) (p : Place) (t : Tree) → tree_at n s p ≡ Some t
        → length (visits n s p) ≡ pointers_of t }
    ensures row_cost { (n : ℕ) (s : Segments) (p : Place) (k : ℕ) (ts : Trees)
        → each (tree_at n s) p k ≡ Some ts
        → visits_cost (from_each (visits n s) p k) ≡ Some (cost_each (cost_at n s) p k) }
    ensures row_count { (n : ℕ) (s : Segments) (p : Place) (k : ℕ) (ts : Trees) → each (tree_at n s)
        p k ≡ Some ts → length (from_each (visits n s) p k) ≡ each_pointers_of ts }
    ensures faults { (n : ℕ) (s : Segments) (p : Place)
        → faults_among (visits n s p) ≡ faults_at n s p }
{}

/// A walk that is refused at a visit has followed no more pointers than it began with and one for
/// each word that it paid.
pub fn refused_walks()
    ensures value { (n : ℕ) (s : Segments) (p : Place) (before : List Visit) (last : Visit)
        (rest : List Visit) (paid : ℕ) → visits n s p ≡ before ++ last ∷ rest
        → visits_cost before ≡ Some paid → length before ≤ paid }
    ensures row { (n : ℕ) (s : Segments) (p : Place) (k : ℕ) (before : List Visit)
        (last : Visit) (rest : List Visit) (paid : ℕ)
        → from_each (visits n s) p k ≡ before ++ last ∷ rest → visits_cost before ≡ Some paid
        → length before + 1 ≤ k + paid }
{}
