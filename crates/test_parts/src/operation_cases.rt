// Operations on texts, with what they make. Fields are written as `fields.rt` says: `_` stands for a space that isn't
// the one behind an operation's name.

/// In each line an operation, a text, and the operation's value worked out by hand. They are on lines that are kept or
/// left out, the first and the last lines, lines in order, lines that repeat, and lines joined with those of another
/// text. In the last two rows keys have one first slot in the table of `match`: two keys and one that isn't there, and
/// more than so many as slots are looked at.
pub(crate) const BY_HAND: &str = "\
pass||\n\
pass|~|~\n\
pass|x~y|x~y~\n\
keep x||\n\
keep |x~~y~|x~~y~\n\
keep ||\n\
keep x|axa~b~cx~xd~~xx~|axa~cx~xd~xx~\n\
keep ab|a~b~ab~aab~ba~|ab~aab~\n\
keep longer|x~y~|\n\
keep x~y|x~y~|\n\
keep ~|~~|\n\
keep ^|a^b~b~^~|a^b~^~\n\
keep $%|$%~$~|$%~\n\
without x|axa~b~cx~xd~~xx~|b~~\n\
without |x~~|\n\
without x~y|x~y~|x~y~\n\
without longer|x~y~|x~y~\n\
head 0|1~2~|\n\
head 2|1~2~3~|1~2~\n\
head 1|~~|~\n\
head 18446744073709551615|1~2~|1~2~\n\
head 1||\n\
tail 0|1~2~|\n\
tail 2|1~2~3~|2~3~\n\
tail 1|~~|~\n\
tail 18446744073709551615|1~2~|1~2~\n\
skip 0|1~2~|1~2~\n\
skip 1|1~2~3~|2~3~\n\
skip 18446744073709551615|1~2~|\n\
sort||\n\
sort|b~~a~|~a~b~\n\
sort|b~a~b~|a~b~b~\n\
sort|a^~a~^~$~|^~a~a^~$~\n\
sort|abcdefg~abcdefgh~abcdef~^^^^^^^~|^^^^^^^~abcdef~abcdefg~abcdefgh~\n\
sort|abcdefghz~abcdefgha~abcdefgh~|abcdefgh~abcdefgha~abcdefghz~\n\
uniq|a~a~b~a~|a~b~a~\n\
uniq|~~~a~|~a~\n\
uniq|^~^~|^~\n\
count||0~\n\
count|~|1~\n\
count|~~~~~~~~~~x~|11~\n\
tally||\n\
tally|~|1_~\n\
tally|b~a~b~~|1_~1_a~2_b~\n\
tally|$~^~$~|1_^~2_$~\n\
tally|b~b~a~b~a~b~b~b~b~b~b~b~b~b~b~b~|2_a~14_b~\n\
tally|c~b~a~b~a~b~b~b~b~b~b~b~b~b~b~b~|2_a~13_b~1_c~\n\
tally|abcdefgh1~abcdefgh1~abcdefgh1~abcdefgh1~abcdefgh1~abcdefgh1~abcdefgh1~abcdefgh2~|7_abcdefgh1~1_abcdefgh2~\n\
match 10_x_y~30_z~10_q~20~|10_a~20_b~10_c~30~|10_a_x_y~20_b~10_c_x_y~30_z~\n\
match |a~|\n\
match _x~|~_a~b~|_x~_a_x~\n\
match abcdefgh1_p~abcdefgh2_q~|abcdefgh2~abcdefgh~|abcdefgh2_q~\n\
match k_1~r_2~|r~t~k_x~|r_2~k_x_1~\n\
match aaa_1~aer~atx~aus~azc~baq~beo~bfb~bhw~blm~brz~bwk~byx~bzs~cci~cjo~cnx_17~aaa_18~|cnx~aaa_x~zz~|cnx_17~aaa_x_1~\n\
";

/// The operations of the table below.
pub(crate) const OPS: &str = "\
pass|keep a|keep ab|without b|head 2|tail 2|skip 2|sort|uniq|count|tally|has b|match a_b~_b~b_a~ab_~a_a~|match aa_bb~~b~|match ";

/// What `tools/text_cases.py` makes of a hundred texts: in each line a text and the value of each of those operations.
pub(crate) const COMPUTED: &str = "\
a_aa~ab~a~|a_aa~ab~a~|a_aa~ab~a~|ab~|a_aa~a~|a_aa~ab~|ab~a~|a~|a~a_aa~ab~|a_aa~ab~a~|3~|1_a~1_a_aa~1_ab~|yes~|a_aa_b~ab_~a_b~||\n\
aa__aa|aa__aa~|aa__aa~||aa__aa~|aa__aa~|aa__aa~||aa__aa~|aa__aa~|1~|1_aa__aa~|no~||aa__aa_bb~|\n\
~_|~_~|||~_~|~_~|~_~||~_~|~_~|2~|1_~1__~|no~|_b~__b~|~_~|\n\
~|~|||~|~|~||~|~|1~|1_~|no~|_b~|~|\n\
a~a|a~a~|a~a~||a~a~|a~a~|a~a~||a~a~|a~|2~|2_a~|no~|a_b~a_b~||\n\
~_aaa~ab_a~a~b~aa~|~_aaa~ab_a~a~b~aa~|_aaa~ab_a~a~aa~|ab_a~|~_aaa~a~aa~|~_aaa~|b~aa~|ab_a~a~b~aa~|~_aaa~a~aa~ab_a~b~|~_aaa~ab_a~a~b~aa~|6~|1_~1__aaa~1_a~1_aa~1_ab_a~1_b~|yes~|_b~_aaa_b~ab_a_~a_b~b_a~|~_aaa~b~aa_bb~|\n\
aba~a~a~a_~_b_~_bb|aba~a~a~a_~_b_~_bb~|aba~a~a~a_~|aba~|a~a~a_~|aba~a~|_b_~_bb~|a~a_~_b_~_bb~|_b_~_bb~a~a~a_~aba~|aba~a~a_~_b_~_bb~|6~|1__b_~1__bb~2_a~1_a_~1_aba~|yes~|a_b~a_b~a__b~_b__b~_bb_b~|_b_~_bb~|\n\
aaa~b~_|aaa~b~_~|aaa~||aaa~_~|aaa~b~|b~_~|_~|_~aaa~b~|aaa~b~_~|3~|1__~1_aaa~1_b~|yes~|b_a~__b~|b~_~|\n\
_b~aa~_aba|_b~aa~_aba~|aa~_aba~|_aba~|aa~|_b~aa~|aa~_aba~|_aba~|_aba~_b~aa~|_b~aa~_aba~|3~|1__aba~1__b~1_aa~|yes~|_b_b~_aba_b~|_b~aa_bb~_aba~|\n\
_aa~~bbb~_~_aab|_aa~~bbb~_~_aab~|_aa~_aab~|_aab~|_aa~~_~|_aa~~|_~_aab~|bbb~_~_aab~|~_~_aa~_aab~bbb~|_aa~~bbb~_~_aab~|5~|1_~1__~1__aa~1__aab~1_bbb~|yes~|_aa_b~_b~__b~_aab_b~|_aa~~_~_aab~|\n\
aab~_b_ba_ba~a_|aab~_b_ba_ba~a_~|aab~_b_ba_ba~a_~|aab~|a_~|aab~_b_ba_ba~|_b_ba_ba~a_~|a_~|_b_ba_ba~a_~aab~|aab~_b_ba_ba~a_~|3~|1__b_ba_ba~1_a_~1_aab~|yes~|_b_ba_ba_b~a__b~|_b_ba_ba~|\n\
a|a~|a~||a~|a~|a~||a~|a~|1~|1_a~|no~|a_b~||\n\
aa___aa__|aa___aa__~|aa___aa__~||aa___aa__~|aa___aa__~|aa___aa__~||aa___aa__~|aa___aa__~|1~|1_aa___aa__~|no~||aa___aa___bb~|\n\
ba_~b_b_aaaaaaaa_|ba_~b_b_aaaaaaaa_~|ba_~b_b_aaaaaaaa_~|||ba_~b_b_aaaaaaaa_~|ba_~b_b_aaaaaaaa_~||b_b_aaaaaaaa_~ba_~|ba_~b_b_aaaaaaaa_~|2~|1_b_b_aaaaaaaa_~1_ba_~|yes~|b_b_aaaaaaaa__a~|b_b_aaaaaaaa_~|\n\
abbaa_~b~~ba~~a_~_|abbaa_~b~~ba~~a_~_~|abbaa_~ba~a_~|abbaa_~|~~a_~_~|abbaa_~b~|a_~_~|~ba~~a_~_~|~~_~a_~abbaa_~b~ba~|abbaa_~b~~ba~~a_~_~|7~|2_~1__~1_a_~1_abbaa_~1_b~1_ba~|yes~|b_a~_b~_b~a__b~__b~|b~~~_~|\n\
__a__aaaa_aa|__a__aaaa_aa~|__a__aaaa_aa~||__a__aaaa_aa~|__a__aaaa_aa~|__a__aaaa_aa~||__a__aaaa_aa~|__a__aaaa_aa~|1~|1___a__aaaa_aa~|no~|__a__aaaa_aa_b~|__a__aaaa_aa~|\n\
~aaa~a~ab~|~aaa~a~ab~|aaa~a~ab~|ab~|~aaa~a~|~aaa~|a~ab~|a~ab~|~a~aaa~ab~|~aaa~a~ab~|4~|1_~1_a~1_aaa~1_ab~|yes~|_b~a_b~ab_~|~|\n\
||||||||||0~||no~|||\n\
a~|a~|a~||a~|a~|a~||a~|a~|1~|1_a~|no~|a_b~||\n\
abb~b_aa____|abb~b_aa____~|abb~b_aa____~|abb~||abb~b_aa____~|abb~b_aa____~||abb~b_aa____~|abb~b_aa____~|2~|1_abb~1_b_aa____~|yes~|b_aa_____a~|b_aa____~|\n\
aaabb_a~a|aaabb_a~a~|aaabb_a~a~|aaabb_a~|a~|aaabb_a~a~|aaabb_a~a~||a~aaabb_a~|aaabb_a~a~|2~|1_a~1_aaabb_a~|yes~|a_b~||\n\
~ba~a~|~ba~a~|ba~a~||~a~|~ba~|ba~a~|a~|~a~ba~|~ba~a~|3~|1_~1_a~1_ba~|yes~|_b~a_b~|~|\n\
ab~baba~~|ab~baba~~|ab~baba~|ab~baba~|~|ab~baba~|baba~~|~|~ab~baba~|ab~baba~~|3~|1_~1_ab~1_baba~|yes~|ab_~_b~|~|\n\
ba~aa_aa~_baab_b|ba~aa_aa~_baab_b~|ba~aa_aa~_baab_b~|_baab_b~|aa_aa~|ba~aa_aa~|aa_aa~_baab_b~|_baab_b~|_baab_b~aa_aa~ba~|ba~aa_aa~_baab_b~|3~|1__baab_b~1_aa_aa~1_ba~|yes~|_baab_b_b~|aa_aa_bb~_baab_b~|\n\
~b_bba|~b_bba~|b_bba~||~|~b_bba~|~b_bba~||~b_bba~|~b_bba~|2~|1_~1_b_bba~|yes~|_b~b_bba_a~|~b_bba~|\n\
aa_aba_|aa_aba_~|aa_aba_~|aa_aba_~||aa_aba_~|aa_aba_~||aa_aba_~|aa_aba_~|1~|1_aa_aba_~|yes~||aa_aba__bb~|\n\
~a_baa_a_a_ba___aaa|~a_baa_a_a_ba___aaa~|a_baa_a_a_ba___aaa~||~|~a_baa_a_a_ba___aaa~|~a_baa_a_a_ba___aaa~||~a_baa_a_a_ba___aaa~|~a_baa_a_a_ba___aaa~|2~|1_~1_a_baa_a_a_ba___aaa~|yes~|_b~a_baa_a_a_ba___aaa_b~|~|\n\
aa~_|aa~_~|aa~||aa~_~|aa~_~|aa~_~||_~aa~|aa~_~|2~|1__~1_aa~|no~|__b~|aa_bb~_~|\n\
a~~_ba~~aaaa~a_aaaba|a~~_ba~~aaaa~a_aaaba~|a~_ba~aaaa~a_aaaba~|a_aaaba~|a~~~aaaa~|a~~|aaaa~a_aaaba~|_ba~~aaaa~a_aaaba~|~~_ba~a~a_aaaba~aaaa~|a~~_ba~~aaaa~a_aaaba~|6~|2_~1__ba~1_a~1_a_aaaba~1_aaaa~|yes~|a_b~_b~_ba_b~_b~a_aaaba_b~|~_ba~~|\n\
~a~bb~_aa|~a~bb~_aa~|a~_aa~||~a~_aa~|~a~|bb~_aa~|bb~_aa~|~_aa~a~bb~|~a~bb~_aa~|4~|1_~1__aa~1_a~1_bb~|yes~|_b~a_b~_aa_b~|~_aa~|\n\
b_~~_~a~a~~a_a~aaaa_~a~|b_~~_~a~a~~a_a~aaaa_~a~|a~a~a_a~aaaa_~a~||~_~a~a~~a_a~aaaa_~a~|b_~~|aaaa_~a~|_~a~a~~a_a~aaaa_~a~|~~_~a~a~a~a_a~aaaa_~b_~|b_~~_~a~~a_a~aaaa_~a~|9~|2_~1__~3_a~1_a_a~1_aaaa_~1_b_~|yes~|b__a~_b~__b~a_b~a_b~_b~a_a_b~a_b~|b_~~_~~|\n\
b|b~||||b~|b~||b~|b~|1~|1_b~|yes~|b_a~|b~|\n\
~~~_a~aaabaa~_~aa_b~~|~~~_a~aaabaa~_~aa_b~~|_a~aaabaa~aa_b~|aaabaa~|~~~_a~_~~|~~|aa_b~~|~_a~aaabaa~_~aa_b~~|~~~~_~_a~aa_b~aaabaa~|~_a~aaabaa~_~aa_b~~|8~|4_~1__~1__a~1_aa_b~1_aaabaa~|yes~|_b~_b~_b~_a_b~__b~_b~|~~~_a~_~aa_b_bb~~|\n\
~ab_~~_~a~b~a_a_a__|~ab_~~_~a~b~a_a_a__~|ab_~a~a_a_a__~|ab_~|~~_~a~a_a_a__~|~ab_~|b~a_a_a__~|~_~a~b~a_a_a__~|~~_~a~a_a_a__~ab_~b~|~ab_~~_~a~b~a_a_a__~|7~|2_~1__~1_a~1_a_a_a__~1_ab_~1_b~|yes~|_b~ab__~_b~__b~a_b~b_a~a_a_a___b~|~~_~b~|\n\
aa_aabaaba|aa_aabaaba~|aa_aabaaba~|aa_aabaaba~||aa_aabaaba~|aa_aabaaba~||aa_aabaaba~|aa_aabaaba~|1~|1_aa_aabaaba~|yes~||aa_aabaaba_bb~|\n\
a_aa__aa|a_aa__aa~|a_aa__aa~||a_aa__aa~|a_aa__aa~|a_aa__aa~||a_aa__aa~|a_aa__aa~|1~|1_a_aa__aa~|no~|a_aa__aa_b~||\n\
_~_b_|_~_b_~|||_~|_~_b_~|_~_b_~||_~_b_~|_~_b_~|2~|1__~1__b_~|yes~|__b~_b__b~|_~_b_~|\n\
bbabab|bbabab~|bbabab~|bbabab~||bbabab~|bbabab~||bbabab~|bbabab~|1~|1_bbabab~|yes~|||\n\
__a_b~~b~aaaaabba|__a_b~~b~aaaaabba~|__a_b~aaaaabba~|aaaaabba~|~|__a_b~~|b~aaaaabba~|b~aaaaabba~|~__a_b~aaaaabba~b~|__a_b~~b~aaaaabba~|4~|1_~1___a_b~1_aaaaabba~1_b~|yes~|__a_b_b~_b~b_a~|__a_b~~b~|\n\
ba_b_|ba_b_~|ba_b_~|||ba_b_~|ba_b_~||ba_b_~|ba_b_~|1~|1_ba_b_~|yes~|||\n\
~~~_|~~~_~|||~~~_~|~~|~_~|~_~|~~~_~|~_~|4~|3_~1__~|no~|_b~_b~_b~__b~|~~~_~|\n\
babaa_abaaba~aaba_ab~_|babaa_abaaba~aaba_ab~_~|babaa_abaaba~aaba_ab~|babaa_abaaba~aaba_ab~|_~|babaa_abaaba~aaba_ab~|aaba_ab~_~|_~|_~aaba_ab~babaa_abaaba~|babaa_abaaba~aaba_ab~_~|3~|1__~1_aaba_ab~1_babaa_abaaba~|yes~|__b~|_~|\n\
~aa~aaab|~aa~aaab~|aa~aaab~|aaab~|~aa~|~aa~|aa~aaab~|aaab~|~aa~aaab~|~aa~aaab~|3~|1_~1_aa~1_aaab~|yes~|_b~|~aa_bb~|\n\
a|a~|a~||a~|a~|a~||a~|a~|1~|1_a~|no~|a_b~||\n\
bb~ab_|bb~ab_~|ab_~|ab_~||bb~ab_~|bb~ab_~||ab_~bb~|bb~ab_~|2~|1_ab_~1_bb~|yes~|ab__~||\n\
abbabaaa~~a~_a_a|abbabaaa~~a~_a_a~|abbabaaa~a~_a_a~|abbabaaa~|~a~_a_a~|abbabaaa~~|a~_a_a~|a~_a_a~|~_a_a~a~abbabaaa~|abbabaaa~~a~_a_a~|4~|1_~1__a_a~1_a~1_abbabaaa~|yes~|_b~a_b~_a_a_b~|~_a_a~|\n\
__~_~baabaa_baaaab_aa|__~_~baabaa_baaaab_aa~|baabaa_baaaab_aa~|baabaa_baaaab_aa~|__~_~|__~_~|_~baabaa_baaaab_aa~|baabaa_baaaab_aa~|_~__~baabaa_baaaab_aa~|__~_~baabaa_baaaab_aa~|3~|1__~1___~1_baabaa_baaaab_aa~|yes~|___b~__b~|__~_~|\n\
_~|_~|||_~|_~|_~||_~|_~|1~|1__~|no~|__b~|_~|\n\
b~aba_aab_abbb~baabab|b~aba_aab_abbb~baabab~|aba_aab_abbb~baabab~|aba_aab_abbb~baabab~||b~aba_aab_abbb~|aba_aab_abbb~baabab~|baabab~|aba_aab_abbb~b~baabab~|b~aba_aab_abbb~baabab~|3~|1_aba_aab_abbb~1_b~1_baabab~|yes~|b_a~|b~|\n\
ab_a_|ab_a_~|ab_a_~|ab_a_~||ab_a_~|ab_a_~||ab_a_~|ab_a_~|1~|1_ab_a_~|yes~|ab_a__~||\n\
~aa~aaba|~aa~aaba~|aa~aaba~|aaba~|~aa~|~aa~|aa~aaba~|aaba~|~aa~aaba~|~aa~aaba~|3~|1_~1_aa~1_aaba~|yes~|_b~|~aa_bb~|\n\
_~a_|_~a_~|a_~||_~a_~|_~a_~|_~a_~||_~a_~|_~a_~|2~|1__~1_a_~|no~|__b~a__b~|_~|\n\
||||||||||0~||no~|||\n\
baa~~a~_b|baa~~a~_b~|baa~a~||~a~|baa~~|a~_b~|a~_b~|~_b~a~baa~|baa~~a~_b~|4~|1_~1__b~1_a~1_baa~|yes~|_b~a_b~_b_b~|~_b~|\n\
_ab~aa~_~a~~~a~aaaaaba_|_ab~aa~_~a~~~a~aaaaaba_~|_ab~aa~a~a~aaaaaba_~|_ab~aaaaaba_~|aa~_~a~~~a~|_ab~aa~|a~aaaaaba_~|_~a~~~a~aaaaaba_~|~~_~_ab~a~a~aa~aaaaaba_~|_ab~aa~_~a~~a~aaaaaba_~|8~|2_~1__~1__ab~2_a~1_aa~1_aaaaaba_~|yes~|_ab_b~__b~a_b~_b~_b~a_b~|_ab~aa_bb~_~~~|\n\
~aa~a_ba_a~~a~|~aa~a_ba_a~~a~|aa~a_ba_a~a~||~aa~~a~|~aa~|~a~|a_ba_a~~a~|~~a~a_ba_a~aa~|~aa~a_ba_a~~a~|5~|2_~1_a~1_a_ba_a~1_aa~|yes~|_b~a_ba_a_b~_b~a_b~|~aa_bb~~|\n\
_b|_b~||||_b~|_b~||_b~|_b~|1~|1__b~|yes~|_b_b~|_b~|\n\
ba|ba~|ba~|||ba~|ba~||ba~|ba~|1~|1_ba~|yes~|||\n\
aa___a_ba~aa~abbb~~aa_a|aa___a_ba~aa~abbb~~aa_a~|aa___a_ba~aa~abbb~aa_a~|abbb~|aa~~aa_a~|aa___a_ba~aa~|~aa_a~|abbb~~aa_a~|~aa~aa___a_ba~aa_a~abbb~|aa___a_ba~aa~abbb~~aa_a~|5~|1_~1_aa~1_aa___a_ba~1_aa_a~1_abbb~|yes~|_b~|aa___a_ba_bb~aa_bb~~aa_a_bb~|\n\
baa_b~b___a~aba|baa_b~b___a~aba~|baa_b~b___a~aba~|aba~||baa_b~b___a~|b___a~aba~|aba~|aba~b___a~baa_b~|baa_b~b___a~aba~|3~|1_aba~1_b___a~1_baa_b~|yes~|b___a_a~|b___a~|\n\
ab_a~_b_aaa~aa~|ab_a~_b_aaa~aa~|ab_a~_b_aaa~aa~|ab_a~|aa~|ab_a~_b_aaa~|_b_aaa~aa~|aa~|_b_aaa~aa~ab_a~|ab_a~_b_aaa~aa~|3~|1__b_aaa~1_aa~1_ab_a~|yes~|ab_a_~_b_aaa_b~|_b_aaa~aa_bb~|\n\
ba~~baba|ba~~baba~|ba~baba~|baba~|~|ba~~|~baba~|baba~|~ba~baba~|ba~~baba~|3~|1_~1_ba~1_baba~|yes~|_b~|~|\n\
__aaa___ba_b_ba|__aaa___ba_b_ba~|__aaa___ba_b_ba~|||__aaa___ba_b_ba~|__aaa___ba_b_ba~||__aaa___ba_b_ba~|__aaa___ba_b_ba~|1~|1___aaa___ba_b_ba~|yes~|__aaa___ba_b_ba_b~|__aaa___ba_b_ba~|\n\
abb_aaabbb|abb_aaabbb~|abb_aaabbb~|abb_aaabbb~||abb_aaabbb~|abb_aaabbb~||abb_aaabbb~|abb_aaabbb~|1~|1_abb_aaabbb~|yes~|||\n\
__|__~|||__~|__~|__~||__~|__~|1~|1___~|no~|___b~|__~|\n\
ab_babaabaab_~bab_|ab_babaabaab_~bab_~|ab_babaabaab_~bab_~|ab_babaabaab_~bab_~||ab_babaabaab_~bab_~|ab_babaabaab_~bab_~||ab_babaabaab_~bab_~|ab_babaabaab_~bab_~|2~|1_ab_babaabaab_~1_bab_~|yes~|ab_babaabaab__~||\n\
||||||||||0~||no~|||\n\
_~~aaa__~ab_a~aa__bb|_~~aaa__~ab_a~aa__bb~|aaa__~ab_a~aa__bb~|ab_a~|_~~aaa__~|_~~|ab_a~aa__bb~|aaa__~ab_a~aa__bb~|~_~aa__bb~aaa__~ab_a~|_~~aaa__~ab_a~aa__bb~|5~|1_~1__~1_aa__bb~1_aaa__~1_ab_a~|yes~|__b~_b~ab_a_~|_~~aa__bb_bb~|\n\
bb_ab_~_a|bb_ab_~_a~|bb_ab_~_a~|bb_ab_~|_a~|bb_ab_~_a~|bb_ab_~_a~||_a~bb_ab_~|bb_ab_~_a~|2~|1__a~1_bb_ab_~|yes~|_a_b~|_a~|\n\
aaa~_|aaa~_~|aaa~||aaa~_~|aaa~_~|aaa~_~||_~aaa~|aaa~_~|2~|1__~1_aaa~|no~|__b~|_~|\n\
a_b__a~aaaab~abab|a_b__a~aaaab~abab~|a_b__a~aaaab~abab~|aaaab~abab~||a_b__a~aaaab~|aaaab~abab~|abab~|a_b__a~aaaab~abab~|a_b__a~aaaab~abab~|3~|1_a_b__a~1_aaaab~1_abab~|yes~|a_b__a_b~||\n\
~aa___~a|~aa___~a~|aa___~a~||~aa___~a~|~aa___~|aa___~a~|a~|~a~aa___~|~aa___~a~|3~|1_~1_a~1_aa___~|no~|_b~a_b~|~aa____bb~|\n\
bba_b~ba~~aa|bba_b~ba~~aa~|bba_b~ba~aa~||~aa~|bba_b~ba~|~aa~|~aa~|~aa~ba~bba_b~|bba_b~ba~~aa~|4~|1_~1_aa~1_ba~1_bba_b~|yes~|_b~|~aa_bb~|\n\
a____baa|a____baa~|a____baa~|||a____baa~|a____baa~||a____baa~|a____baa~|1~|1_a____baa~|yes~|a____baa_b~||\n\
_|_~|||_~|_~|_~||_~|_~|1~|1__~|no~|__b~|_~|\n\
_~_aa_~__aaaaa~a_a~aaa|_~_aa_~__aaaaa~a_a~aaa~|_aa_~__aaaaa~a_a~aaa~||_~_aa_~__aaaaa~a_a~aaa~|_~_aa_~|a_a~aaa~|__aaaaa~a_a~aaa~|_~__aaaaa~_aa_~a_a~aaa~|_~_aa_~__aaaaa~a_a~aaa~|5~|1__~1___aaaaa~1__aa_~1_a_a~1_aaa~|no~|__b~_aa__b~__aaaaa_b~a_a_b~|_~_aa_~__aaaaa~|\n\
~abab~_|~abab~_~|abab~|abab~|~_~|~abab~|abab~_~|_~|~_~abab~|~abab~_~|3~|1_~1__~1_abab~|yes~|_b~__b~|~_~|\n\
aaab~~a_ba~aa~b_bba_~a|aaab~~a_ba~aa~b_bba_~a~|aaab~a_ba~aa~b_bba_~a~|aaab~|~aa~a~|aaab~~|b_bba_~a~|a_ba~aa~b_bba_~a~|~a~a_ba~aa~aaab~b_bba_~|aaab~~a_ba~aa~b_bba_~a~|6~|1_~1_a~1_a_ba~1_aa~1_aaab~1_b_bba_~|yes~|_b~a_ba_b~b_bba__a~a_b~|~aa_bb~b_bba_~|\n\
aa_baaa__aba_ba_a|aa_baaa__aba_ba_a~|aa_baaa__aba_ba_a~|aa_baaa__aba_ba_a~||aa_baaa__aba_ba_a~|aa_baaa__aba_ba_a~||aa_baaa__aba_ba_a~|aa_baaa__aba_ba_a~|1~|1_aa_baaa__aba_ba_a~|yes~||aa_baaa__aba_ba_a_bb~|\n\
b_b_aab~aa_abaa_abba~_|b_b_aab~aa_abaa_abba~_~|b_b_aab~aa_abaa_abba~|b_b_aab~aa_abaa_abba~|_~|b_b_aab~aa_abaa_abba~|aa_abaa_abba~_~|_~|_~aa_abaa_abba~b_b_aab~|b_b_aab~aa_abaa_abba~_~|3~|1__~1_aa_abaa_abba~1_b_b_aab~|yes~|b_b_aab_a~__b~|b_b_aab~aa_abaa_abba_bb~_~|\n\
aa__a~a_aaa~a_aaa__|aa__a~a_aaa~a_aaa__~|aa__a~a_aaa~a_aaa__~||aa__a~a_aaa~a_aaa__~|aa__a~a_aaa~|a_aaa~a_aaa__~|a_aaa__~|a_aaa~a_aaa__~aa__a~|aa__a~a_aaa~a_aaa__~|3~|1_a_aaa~1_a_aaa__~1_aa__a~|no~|a_aaa_b~a_aaa___b~|aa__a_bb~|\n\
baaabaa~_ab_bb_aaaabab|baaabaa~_ab_bb_aaaabab~|baaabaa~_ab_bb_aaaabab~|baaabaa~_ab_bb_aaaabab~||baaabaa~_ab_bb_aaaabab~|baaabaa~_ab_bb_aaaabab~||_ab_bb_aaaabab~baaabaa~|baaabaa~_ab_bb_aaaabab~|2~|1__ab_bb_aaaabab~1_baaabaa~|yes~|_ab_bb_aaaabab_b~|_ab_bb_aaaabab~|\n\
a~a_bb_aa_ab~|a~a_bb_aa_ab~|a~a_bb_aa_ab~|a_bb_aa_ab~|a~|a~a_bb_aa_ab~|a~a_bb_aa_ab~||a~a_bb_aa_ab~|a~a_bb_aa_ab~|2~|1_a~1_a_bb_aa_ab~|yes~|a_b~a_bb_aa_ab_b~||\n\
abb_a_a_a_a_aa|abb_a_a_a_a_aa~|abb_a_a_a_a_aa~|abb_a_a_a_a_aa~||abb_a_a_a_a_aa~|abb_a_a_a_a_aa~||abb_a_a_a_a_aa~|abb_a_a_a_a_aa~|1~|1_abb_a_a_a_a_aa~|yes~|||\n\
aa~bbbb~|aa~bbbb~|aa~||aa~|aa~bbbb~|aa~bbbb~||aa~bbbb~|aa~bbbb~|2~|1_aa~1_bbbb~|yes~||aa_bb~|\n\
b|b~||||b~|b~||b~|b~|1~|1_b~|yes~|b_a~|b~|\n\
bbba~aaaa___b__a_aaba~a|bbba~aaaa___b__a_aaba~a~|bbba~aaaa___b__a_aaba~a~|aaaa___b__a_aaba~|a~|bbba~aaaa___b__a_aaba~|aaaa___b__a_aaba~a~|a~|a~aaaa___b__a_aaba~bbba~|bbba~aaaa___b__a_aaba~a~|3~|1_a~1_aaaa___b__a_aaba~1_bbba~|yes~|a_b~||\n\
b_b~a~a_aa|b_b~a~a_aa~|a~a_aa~||a~a_aa~|b_b~a~|a~a_aa~|a_aa~|a~a_aa~b_b~|b_b~a~a_aa~|3~|1_a~1_a_aa~1_b_b~|yes~|b_b_a~a_b~a_aa_b~|b_b~|\n\
aa_~~ba_aab~a|aa_~~ba_aab~a~|aa_~ba_aab~a~|ba_aab~|aa_~~a~|aa_~~|ba_aab~a~|ba_aab~a~|~a~aa_~ba_aab~|aa_~~ba_aab~a~|4~|1_~1_a~1_aa_~1_ba_aab~|yes~|_b~a_b~|aa__bb~~|\n\
a___aa|a___aa~|a___aa~||a___aa~|a___aa~|a___aa~||a___aa~|a___aa~|1~|1_a___aa~|no~|a___aa_b~||\n\
__~a|__~a~|a~||__~a~|__~a~|__~a~||__~a~|__~a~|2~|1___~1_a~|no~|___b~a_b~|__~|\n\
~abbb~bbbba_aaaaab~aba_|~abbb~bbbba_aaaaab~aba_~|abbb~bbbba_aaaaab~aba_~|abbb~bbbba_aaaaab~aba_~|~|~abbb~|bbbba_aaaaab~aba_~|bbbba_aaaaab~aba_~|~aba_~abbb~bbbba_aaaaab~|~abbb~bbbba_aaaaab~aba_~|4~|1_~1_aba_~1_abbb~1_bbbba_aaaaab~|yes~|_b~|~|\n\
a~~aa_aa|a~~aa_aa~|a~aa_aa~||a~~aa_aa~|a~~|~aa_aa~|aa_aa~|~a~aa_aa~|a~~aa_aa~|3~|1_~1_a~1_aa_aa~|no~|a_b~_b~|~aa_aa_bb~|\n\
||||||||||0~||no~|||\n\
a_babaaaa~~aab~|a_babaaaa~~aab~|a_babaaaa~aab~|a_babaaaa~aab~|~|a_babaaaa~~|~aab~|aab~|~a_babaaaa~aab~|a_babaaaa~~aab~|3~|1_~1_a_babaaaa~1_aab~|yes~|a_babaaaa_b~_b~|~|\n\
_~baa|_~baa~|baa~||_~|_~baa~|_~baa~||_~baa~|_~baa~|2~|1__~1_baa~|yes~|__b~|_~|\n\
~~baabbaaaba~aab_ba~|~~baabbaaaba~aab_ba~|baabbaaaba~aab_ba~|baabbaaaba~aab_ba~|~~|~~|baabbaaaba~aab_ba~|baabbaaaba~aab_ba~|~~aab_ba~baabbaaaba~|~baabbaaaba~aab_ba~|4~|2_~1_aab_ba~1_baabbaaaba~|yes~|_b~_b~|~~|\n\
aaa_~_a_a|aaa_~_a_a~|aaa_~_a_a~||aaa_~_a_a~|aaa_~_a_a~|aaa_~_a_a~||_a_a~aaa_~|aaa_~_a_a~|2~|1__a_a~1_aaa_~|no~|_a_a_b~|_a_a~|\n\
~a~aa_b_bb_a|~a~aa_b_bb_a~|a~aa_b_bb_a~||~a~|~a~|a~aa_b_bb_a~|aa_b_bb_a~|~a~aa_b_bb_a~|~a~aa_b_bb_a~|3~|1_~1_a~1_aa_b_bb_a~|yes~|_b~a_b~|~aa_b_bb_a_bb~|\n\
~b__aba__|~b__aba__~|b__aba__~|b__aba__~|~|~b__aba__~|~b__aba__~||~b__aba__~|~b__aba__~|2~|1_~1_b__aba__~|yes~|_b~b__aba___a~|~b__aba__~|\n\
";

/// Operations on a line of 33,554,431 bytes, and how many bytes their values have or would have.
pub(crate) const SIZES: &str = "\
pass|33554431\n\
keep x|33554431\n\
without y|33554431\n\
head 9|33554431\n\
uniq|33554431\n\
sort|33554431\n\
tally|33554433\n\
count|2\n\
";
